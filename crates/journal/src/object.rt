// Where the object of an entry stands, and the records there.
ghost use Rattle.std.specs.Prelude.{◌≡◌, [], unwrap_or, option_copied};
ghost use Rattle.journal.specs.Places.{site_part, state_part, object_place};

use index::{IndexedSite, Place};
use model::{CredentialId, Operation, PointId, ZoneId};
use records::{FromPart, Record};
use site::indexed;

// The site record at a place, where there is one.
#[tactic(auto, unfolding(model::specs::InPlace::part_of, model::specs::Site::records))]
pub fn site_part<'s>(site: &IndexedSite<'s, '_>, place: Option<Place>) -> Option<&'s Record>
    ensures { unwrap_or (option_copied result) [] ≡ site_part place site.now }
{
    site.records().get(place?.site)
}

// The state record there.
#[tactic(auto, unfolding(model::specs::InPlace::part_of))]
pub fn state_part(state: &[u8], place: Option<Place>) -> Option<&Record>
    ensures { unwrap_or (option_copied result) [] ≡ state_part place state.now }
{
    octets::groups(state).get(place?.state)
}

// What is read of the site record at a place, or of none.
pub(crate) fn read_site<R: FromPart>(site: &IndexedSite, place: Option<Place>) -> R
    ensures { result ≡ R.of_part (site_part place site.now) }
{
    R::from_part(site_part(site, place))
}

// What is read of the state record there.
pub(crate) fn read_state<R: FromPart>(state: &[u8], place: Option<Place>) -> R
    ensures { result ≡ R.of_part (state_part place state.now) }
{
    R::from_part(state_part(state, place))
}

// Where the object stands that an instance names under an operation; an unknown one names none.
pub fn object_place(
    site: &IndexedSite,
    operation: Option<Operation>,
    instance: u32,
) -> Option<Place>
    ensures { result ≡ object_place operation instance site.now }
{
    match operation? {
        Operation::Factor | Operation::SetService => indexed::place_of(site, PointId(instance)),
        Operation::SetCount | Operation::AdjustCount => indexed::place_of(site, ZoneId(instance)),
        Operation::SetDisable => indexed::place_of(site, CredentialId(instance)),
    }
}
