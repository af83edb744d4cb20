// The lookups in a site by its index, each with the promise of its fellow on any slice.
ghost use Rattle.std.specs.Prelude.{◌≡◌, [], unwrap_or, option_copied};
ghost use Rattle.model.specs.Numbers.{authentication_factor};
ghost use Rattle.model.specs.Site.{records, is_at, find_in};
ghost use Rattle.model.specs.Accept as Accept;
ghost use Rattle.index.specs.Index.{object_bucket};
ghost use Rattle.site.specs.Place.{place_of};
ghost use Rattle.model.proofs.Laws.{kind_at};
ghost use Rattle.index.proofs.Buckets.{object_bucket_law};
ghost use Rattle.site.specs.Sought.{fits_bucket, fits_kind};
ghost use Rattle.site.specs.Factor.{fits as fits_presented, presented_bucket};

use super::Presented;
use super::lookup::{is_at, is_fitting};
use super::object::{Object, Placed};
use index::{Bucket, IndexedSite, Keyed, Place, Sought};
use model::numbers::{AUTHENTICATION_FACTOR, NONE};
use records::Record;

// An object as what is sought: the record of its kind and instance.
#[derive(Clone, Copy)]
struct RecordOf<O>(O);

impl<O: Placed> Sought for RecordOf<O> {
    ghost fits = { λ s. is_at O.KIND (O.instance s.0) };

    ghost bucket = { λ s. object_bucket O.KIND (O.instance s.0) };

    ghost kind = { λ s. O.KIND };

    ghost of_bucket = { λ s part e. object_bucket_law O.KIND (O.instance s.0) O.by_instance part e };

    ghost of_kind = { λ s part e. kind_at O.KIND (O.instance s.0) part e };

    fn fits(self, part: &Record) -> bool {
        is_at(part, self.0)
    }

    fn kind(self) -> u8 {
        O::KIND
    }
}

impl<O: Placed> Keyed for RecordOf<O> {
    fn bucket(self) -> Bucket {
        index::object_bucket(O::KIND, self.0.instance())
    }
}

// What is presented as what is sought: a factor that fits it.
impl Sought for Presented {
    ghost fits = { fits_presented };

    ghost bucket = { presented_bucket };

    ghost kind = { λ p. authentication_factor };

    ghost of_bucket = { fits_bucket };

    ghost of_kind = { fits_kind };

    fn fits(self, part: &Record) -> bool {
        is_fitting(part, self)
    }

    fn kind(self) -> u8 {
        AUTHENTICATION_FACTOR
    }
}

#[tactic(auto, unfolding(crate::specs::Factor::presented_bucket))]
impl Keyed for Presented {
    fn bucket(self) -> Bucket {
        // 0 stands for none, as in the definition.
        let owner = match self.confirms {
            Some(credential) => credential.0,
            None => 0,
        };
        index::value_bucket(self.format, self.value, owner)
    }
}

// Where the record of an object stands.
#[tactic(auto, using(crate::proofs::Places::found_within), unfolding(crate::specs::Place::site_place, crate::specs::Place::place_of))]
pub fn place_of<O: Placed>(site: &IndexedSite, object: O) -> Option<Place>
    ensures { result ≡ place_of O.KIND (O.instance object) site.now }
{
    let i = site.first(RecordOf(object))?;
    Some(site.place(i))
}

// Whether it is there; where it stands is not asked.
#[tactic(auto, using(crate::proofs::Places::place_tells), unfolding(crate::specs::Place::site_place))]
pub fn exists<O: Placed>(site: &IndexedSite, object: O) -> bool
    ensures { result ≡ Accept.exists (records site.now) O.KIND (O.instance object) }
{
    site.first(RecordOf(object)).is_some()
}

// Whether a reference is NONE or names an object that exists: NONE is not looked up.
#[tactic(auto, unfolding(model::specs::Accept::none_or_exists))]
pub fn none_or_exists<O: Placed>(site: &IndexedSite, object: O) -> bool
    ensures { result ≡ Accept.none_or_exists (records site.now) O.KIND (O.instance object) }
{
    object.instance() == NONE || exists(site, object)
}

// The first factor that fits what is presented.
#[tactic(auto, using(crate::proofs::Places::found_at, crate::proofs::Places::found_within, crate::proofs::Places::found_nowhere))]
pub fn find_factor<'s>(site: &IndexedSite<'s, '_>, p: Presented) -> Option<&'s Record>
    ensures { unwrap_or (option_copied result) [] ≡ find_in (fits_presented p) (records site.now) }
{
    let i = site.first(p)?;
    Some(site.record_at(i))
}
