// The records that a factor read looks at: each is looked up once, and its place kept for what is written.
ghost use Rattle.std.specs.Prelude.{◌≡◌, ℕ, List, [], unwrap_or, option_copied};
ghost use Rattle.model.specs.Site.{records, find_in};
ghost use Rattle.model.specs.State.{count};
ghost use Rattle.model.specs.Checks.{factor_for, credential_read};
ghost use Rattle.model.specs.Step.{disable_of};
ghost use Rattle.site.specs.Factor.{fits};
ghost use Rattle.journal.specs.Places.{site_part, state_part, seek_place};
ghost use Rattle.journal.specs.Gather.{to_at, gathered};

use super::object::{read_site, read_state, site_part, state_part};
use super::{Gathered, Places};
use index::{IndexedSite, Place};
use model::numbers::NONE;
use model::{CredentialId, Entry, Point, PointState, Situation};
use records::Record;
use records::site::{factor_disable_of, instance_of, zone_to_of};
use records::state::count_of;
use site::object::Placed;
use site::{Presented, indexed};

// Where what a reference names stands: NONE names nothing.
#[tactic(auto, unfolding(crate::specs::Places::seek_place))]
fn seek<O: Placed>(site: &IndexedSite, object: O) -> Option<Place>
    ensures { result ≡ seek_place O.KIND (O.instance object) site.now }
{
    if object.instance() == NONE {
        return None;
    }
    indexed::place_of(site, object)
}

// A zone's count, or 0 where there is no zone.
pub(crate) fn count_at(state: &[u8], place: Option<Place>) -> u32
    ensures { result ≡ count (state_part place state.now) }
{
    count_of(state_part(state, place))
}

// Where the Zone_To stands of the point that stands at a place.
#[tactic(auto, unfolding(crate::specs::Gather::to_at))]
pub fn zone_to_at(site: &IndexedSite, place: Option<Place>) -> Option<Place>
    ensures { result ≡ to_at place site.now }
{
    seek(site, zone_to_of(site_part(site, place)))
}

// What is presented at a point that waits for a credential or for nobody.
#[tactic(auto, using(crate::proofs::Factors::presented_for))]
fn presented(waiting: CredentialId, e: Entry) -> Presented
    ensures { (ss : List (List ℕ)) → find_in (fits result) ss ≡ factor_for waiting e ss }
{
    // By a variable, as the borrow checker asks of a field that is an array.
    let value = e.value;
    Presented {
        confirms: (waiting != CredentialId::NONE).then_some(waiting),
        format: e.argument,
        value,
    }
}

// The factor that was read there.
fn factor_for<'s>(site: &IndexedSite<'s, '_>, waiting: CredentialId, e: Entry) -> Option<&'s Record>
    ensures { unwrap_or (option_copied result) [] ≡ factor_for waiting e (records site.now) }
{
    indexed::find_factor(site, presented(waiting, e))
}

// The credential waited for, else that of the factor, else NONE.
#[tactic(auto, unfolding(model::specs::Checks::credential_read))]
fn credential_read(waiting: CredentialId, factor: Option<&Record>) -> CredentialId
    ensures { result ≡ credential_read waiting (unwrap_or (option_copied factor.entry) []) }
{
    if waiting != CredentialId::NONE {
        return waiting;
    }
    factor.map_or(CredentialId::NONE, |part| CredentialId(instance_of(part)))
}

// The disable of a factor, where there is one.
fn disable_of(factor: Option<&Record>) -> Option<u8>
    ensures { result ≡ disable_of (unwrap_or (option_copied factor.entry) []) }
{
    factor.map(|part| factor_disable_of(part))
}

// The situation of a factor read at the point that stands at a place.
#[tactic(auto, unfolding(crate::specs::Gather::gathered, crate::specs::Gather::waiting_at, crate::specs::Gather::factor_at, crate::specs::Gather::number_at, crate::specs::Gather::to_at, crate::specs::Gather::from_at, crate::specs::Gather::held_at))]
pub fn gather(site: &IndexedSite, state: &[u8], e: Entry, place: Option<Place>) -> Gathered
    ensures { result ≡ gathered place e site.now state.now }
{
    let point: Point = read_site(site, place);
    let point_state: PointState = read_state(state, place);
    let waiting = point_state.waiting_credential;
    let factor = factor_for(site, waiting, e);
    let number = credential_read(waiting, factor);
    let zone_to = seek(site, point.zone_to);
    let zone_from = seek(site, point.zone_from);
    let credential = seek(site, number);
    let situation = Situation {
        point,
        point_state,
        zone_to: read_site(site, zone_to),
        count_to: count_at(state, zone_to),
        zone_from: read_site(site, zone_from),
        count_from: count_at(state, zone_from),
        factor_disable: disable_of(factor),
        number,
        credential: read_site(site, credential),
        credential_state: read_state(state, credential),
    };
    let places = Places {
        point: place,
        credential,
        zone_to,
        zone_from,
    };
    Gathered { situation, places }
}
