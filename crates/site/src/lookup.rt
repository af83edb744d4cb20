// The record that a number names, and its place, on any slice.
ghost use Rattle.std.specs.Prelude.{◌≡◌, ◌+◌, ◌≤◌, [], length, take, drop, unwrap_or, option_copied};
ghost use Rattle.octets.specs.Octets.{same};
ghost use Rattle.model.specs.Site as Site;
ghost use Rattle.model.specs.Site.{records, is_at, find_in, lookup};
ghost use Rattle.model.specs.State.{state_length};
ghost use Rattle.model.specs.Checks.{presents, identifying, confirming};
ghost use Rattle.site.specs.Place.{place_of};
ghost use Rattle.site.specs.Factor.{fits};

use super::Presented;
use super::object::Object;
use index::Place;
use model::CredentialId;
use model::layout::FACTOR_VALUE;
use model::numbers::{AUTHENTICATION_FACTOR, RECORD_SIZE, ROLE_CONFIRMING, ROLE_IDENTIFYING};
use octets::Number;
use records::Record;
use records::site::{format_of, instance_of, is_kept, kind_of, role_of};

// Whether a record is that of an object; the lookups by the index share it.
pub(crate) fn is_at<O: Object>(part: &Record, object: O) -> bool
    ensures { result ≡ is_at O.KIND (O.instance object) part.now }
{
    kind_of(part) == O::KIND && instance_of(part) == object.instance()
}

// Where the first record of an object stands, and its state record: both in one pass over the records.
pub fn place_of<O: Object>(site: &[u8], object: O) -> Option<Place>
    ensures { result ≡ place_of O.KIND (O.instance object) site.now }
{
    let mut state = 0;
    for (i, part) in index::records(site).iter().enumerate() {
        if is_at(part, object) {
            return Some(Place { site: i, state });
        }
        state += usize::from(is_kept(part));
    }
    None
}

// How long the state of a site is.
#[tactic(auto, using(model::proofs::Laws::length_keep), unfolding(model::specs::State::state_length))]
pub fn state_length(site: &[u8]) -> usize
    ensures { result ≡ state_length site.now }
{
    index::kept_count(index::records(site)) * RECORD_SIZE
}

// A record that is found, else the empty part, as document 01 asks of a lookup.
fn part_of<'a>(part: Option<&'a Record>) -> &'a [u8]
    ensures { result.now ≡ unwrap_or (option_copied part.entry) [] }
{
    match part {
        Some(part) => part,
        None => &[],
    }
}

// The first record of an object, else the empty part.
pub fn find<O: Object>(site: &[u8], object: O) -> &[u8]
    ensures { result.now ≡ lookup O.KIND (O.instance object) site.now }
{
    part_of(index::records(site).iter().find(|part| is_at(part, object)))
}

// Whether eight bytes of one slice are eight bytes of another. They are compared as two words, which is quicker than byte by byte or as one number, and
// the second word first, since values with leading zeros differ there.
pub(crate) fn same_eight(a: &[u8], i: usize, b: &[u8], j: usize) -> bool
    requires { (i + 8 ≤ length a.now) × (j + 8 ≤ length b.now) }
    ensures { result ≡ same (take 8 (drop i a.now)) (take 8 (drop j b.now)) }
{
    u32::get(a, i + 4) == u32::get(b, j + 4) && u32::get(a, i) == u32::get(b, j)
}

// Whether a factor has a value. All eight bytes are compared, leading zeros included.
fn has_value(part: &Record, value: [u8; 8]) -> bool
    ensures { result ≡ same (Site.value part.now) value }
{
    same_eight(part, FACTOR_VALUE, &value, 0)
}

// Whether a factor has the format and the value that are presented.
#[tactic(auto, unfolding(model::specs::Checks::presents))]
fn is_presented(part: &Record, p: Presented) -> bool
    ensures { result ≡ presents p.format p.value part.now }
{
    (format_of(part) == p.format) & has_value(part, p.value)
}

// Two functions, here and below: each is a definition, of another role and other fields.
#[tactic(auto, unfolding(model::specs::Checks::identifying))]
fn is_identifying(part: &Record, p: Presented) -> bool
    ensures { result ≡ identifying p.format p.value part.now }
{
    (kind_of(part) == AUTHENTICATION_FACTOR)
        & (role_of(part) == ROLE_IDENTIFYING)
        & is_presented(part, p)
}

#[tactic(auto, unfolding(model::specs::Checks::confirming))]
fn is_confirming(part: &Record, credential: CredentialId, p: Presented) -> bool
    ensures { result ≡ confirming credential p.format p.value part.now }
{
    (kind_of(part) == AUTHENTICATION_FACTOR)
        & (CredentialId(instance_of(part)) == credential)
        & (role_of(part) == ROLE_CONFIRMING)
        & is_presented(part, p)
}

// Whether a factor fits what is presented; the lookup by the index shares it.
#[tactic(auto, unfolding(crate::specs::Factor::fits))]
pub(crate) fn is_fitting(part: &Record, p: Presented) -> bool
    ensures { result ≡ fits p part.now }
{
    match p.confirms {
        Some(credential) => is_confirming(part, credential, p),
        None => is_identifying(part, p),
    }
}

// The first factor that fits what is presented, else the empty part.
pub fn find_factor(site: &[u8], p: Presented) -> &[u8]
    ensures { result.now ≡ find_in (fits p) (records site.now) }
{
    part_of(index::records(site).iter().find(|part| is_fitting(part, p)))
}
