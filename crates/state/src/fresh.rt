// The fresh state of a site: a state record for each zone, point and credential, in site sequence.
#![tactic(auto, unfolding(octets::specs::Octets::digits, model::specs::State::kept, model::specs::State::zone_bytes, model::specs::State::fresh_record, model::specs::State::fresh_credential))]

ghost use Rattle.std.specs.Prelude.{◌≡◌, true, length};
ghost use Rattle.model.specs.State.{kept, fresh_record, fresh, state_length};

use model::RecordKind;
use model::numbers::RECORD_SIZE;
use records::site::{days_given, disable_given, is_kept, record_kind_of, uses_given};
use records::state::{fresh_credential, fresh_point};
use records::{Record, ToRecord};

// The state record of a site record that has one, in the part that is lent for it.
fn write_fresh(part: &mut [u8], s: &Record)
    requires part_len { length part.old ≡ 32 }
    requires has_state { kept s.now ≡ true }
    ensures { part.new ≡ fresh_record s.now }
{
    match record_kind_of(s) {
        Some(RecordKind::OfZone) => 0u32.write_record(part),
        Some(RecordKind::OfPoint) => fresh_point().write_record(part),
        Some(RecordKind::OfCredential) => {
            fresh_credential(uses_given(s), days_given(s), disable_given(s)).write_record(part)
        }
        Some(RecordKind::OfRule | RecordKind::OfFactor) | None => unreachable!(),
    }
}

pub fn write_fresh_state(site: &[u8], state: &mut [u8])
    requires { length state.old ≡ state_length site.now }
    ensures { state.new ≡ fresh site.now }
{
    let mut place = 0;
    for s in index::records(site) {
        if is_kept(s) {
            let start = place * RECORD_SIZE;
            let end = start + RECORD_SIZE;
            write_fresh(&mut state[start..end], s);
            place += 1;
        }
    }
}
