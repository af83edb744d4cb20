// Whether a state is well formed, or a longer one: each state record beside its site record, in a site.
#![tactic(auto, unfolding(model::specs::State::zone_well, model::specs::State::below_most, model::specs::State::point_well, model::specs::State::credential_well, model::specs::State::record_well, model::specs::Longer::long_record_well))]

ghost use Rattle.std.specs.Prelude.{◌≡◌, length};
ghost use Rattle.model.specs.Site.{records};
ghost use Rattle.model.specs.State.{zone_well, below_most, point_well, credential_well, record_well, well_formed, state_length};
ghost use Rattle.model.specs.Longer.{long_record_well, long_well_formed};

use index::IndexedSite;
use model::numbers::{LARGEST_DISABLE, RECORD_SIZE};
use model::{CredentialId, PointState, RecordKind, layout};
use records::site::{is_kept, most_failures_of, most_wrong_tries_of, record_kind_of};
use records::state::{
    credential_disable_of, credential_zone_of, last_point_of, locked_byte_of, wrong_tries_of,
};
use records::{FromPart, Record};
use site::indexed::none_or_exists;
use site::range::is_clear;

fn zone_well(t: &Record) -> bool
    ensures { result ≡ zone_well t.now }
{
    is_clear(t, layout::ZONE_STATE_SPARE, layout::ZONE_STATE_SPARE_SIZE)
}

// Failures, or wrong tries, are below the most, and none where no most is set.
fn is_below_most(count: u8, most: u8) -> bool
    ensures { result ≡ below_most count most }
{
    if most == 0 {
        return count == 0;
    }
    count < most
}

fn point_well(site: &IndexedSite, s: &Record, t: &Record) -> bool
    ensures { result ≡ point_well (records site.now) s.now t.now }
{
    let p = PointState::from_part(t);
    (locked_byte_of(t) <= 1)
        & is_clear(
            t,
            layout::POINT_STATE_LOCKED_SPARE,
            layout::POINT_STATE_LOCKED_SPARE_SIZE,
        )
        & is_clear(t, layout::POINT_STATE_SPARE, layout::POINT_STATE_SPARE_SIZE)
        & none_or_exists(site, p.waiting_credential)
        & (!p.locked | (p.waiting_credential == CredentialId::NONE))
        & is_below_most(p.failures, most_failures_of(s))
}

fn credential_well(site: &IndexedSite, s: &Record, t: &Record) -> bool
    ensures { result ≡ credential_well (records site.now) s.now t.now }
{
    (credential_disable_of(t) <= LARGEST_DISABLE)
        & is_clear(
            t,
            layout::CREDENTIAL_STATE_SPARE,
            layout::CREDENTIAL_STATE_SPARE_SIZE,
        )
        & none_or_exists(site, credential_zone_of(t))
        & none_or_exists(site, last_point_of(t))
        & is_below_most(wrong_tries_of(t), most_wrong_tries_of(s))
}

// The state record t of the site record s: they stand in two files, as document 01 has them. A rule and a factor have none. It is inlined in both checks,
// since each asks it of every record.
#[inline(always)]
fn record_well(site: &IndexedSite, s: &Record, t: &Record) -> bool
    ensures { result ≡ record_well (records site.now) (s.now, t.now) }
{
    match record_kind_of(s) {
        Some(RecordKind::OfZone) => zone_well(t),
        Some(RecordKind::OfPoint) => point_well(site, s, t),
        Some(RecordKind::OfCredential) => credential_well(site, s, t),
        Some(RecordKind::OfRule | RecordKind::OfFactor) | None => true,
    }
}

pub fn is_well_formed(site: &IndexedSite, state: &[u8]) -> bool
    requires { length state.now ≡ state_length site.now }
    ensures { result ≡ well_formed site.now state.now }
{
    site.records()
        .iter()
        .filter(|s| is_kept(*s))
        .zip(octets::groups(state))
        .all(|(s, t)| record_well(site, s, t))
}

// In the longer state a rule and a factor have a record of zeros.
fn long_record_well(site: &IndexedSite, s: &Record, t: &Record) -> bool
    ensures { result ≡ long_record_well (records site.now) (s.now, t.now) }
{
    if !is_kept(s) {
        return is_clear(t, 0, RECORD_SIZE);
    }
    record_well(site, s, t)
}

pub fn is_long_well_formed(site: &IndexedSite, long: &[u8]) -> bool
    requires { length long.now ≡ length site.now }
    ensures { result ≡ long_well_formed site.now long.now }
{
    site.records()
        .iter()
        .zip(octets::groups(long))
        .all(|(s, t)| long_record_well(site, s, t))
}
