// From the longer state, with a record for every site record, to the shorter one, and back.
#![tactic(auto)]

ghost use Rattle.std.specs.Prelude.{◌≡◌, ◌%◌, ◌<◌, [], length, get_or};
ghost use Rattle.model.specs.Site.{records};
ghost use Rattle.model.specs.State.{panel, state_length};
ghost use Rattle.model.specs.Longer.{shorter, long_record, longer};

use index::IndexedSite;
use model::numbers::RECORD_SIZE;
use records::Record;
use records::site::is_kept;

// The records of zones, points and credentials, in site sequence.
pub fn write_shorter(site: &[u8], long: &[u8], state: &mut [u8])
    requires long_len { length long.now ≡ length site.now }
    requires state_len { length state.old ≡ state_length site.now }
    ensures { state.new ≡ shorter site.now long.now }
{
    let mut place = 0;
    for (i, s) in index::records(site).iter().enumerate() {
        if is_kept(s) {
            let t: &Record = octets::group(long, i);
            octets::put_group(state, place, t);
            place += 1;
        }
    }
}

// What the longer state has of the i-th site record: its state record, or zeros of a rule or a factor.
fn long_record(site: &IndexedSite, state: &[u8], i: usize) -> Record
    requires state_len { length state.now ≡ state_length site.now }
    requires in_range { i < length (records site.now) }
    ensures { result ≡ long_record (get_or (panel site.now state.now) i ([], [])) }
{
    if !is_kept(site.record_at(i)) {
        return [0; RECORD_SIZE];
    }
    *octets::group(state, site.place(i).state)
}

// Each record of the state at the place of its site record, and zeros for rules and factors.
pub fn write_longer(site: &IndexedSite, state: &[u8], long: &mut [u8])
    requires site_len { length site.now % 32 ≡ 0 }
    requires state_len { length state.now ≡ state_length site.now }
    requires long_len { length long.old ≡ length site.now }
    ensures { long.new ≡ longer site.now state.now }
{
    for i in 0..site.records().len() {
        octets::put_group(long, i, &long_record(site, state, i));
    }
}
