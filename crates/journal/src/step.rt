// One entry: its form, its object, what it looks at, its outcome; then its records are written.
ghost use Rattle.std.specs.Prelude.{◌≡◌, ℕ, List, Option, Some, length};
ghost use Rattle.model.specs.Site.{point_of};
ghost use Rattle.model.specs.State.{panel, state_length, state_of, point_state_of};
ghost use Rattle.model.specs.Step.{service_outcome, entry_outcome, apply};
ghost use Rattle.journal.specs.Places.{site_part, state_part, applied};
ghost use Rattle.journal.specs.Gather.{count_to};
ghost use Rattle.journal.specs.Decide.{at_object, refused_as, or_refused, served_at, read_at, worked_at, decided_at, decided_on};

use super::apply::apply_outcome;
use super::decide::decide;
use super::gather::{count_at, gather, zone_to_at};
use super::object::{object_place, read_state, site_part, state_part};
use super::{Decided, Places};
use effects::operations;
use entries::form;
use index::{IndexedSite, Place};
use model::{Answer, Entry, EntryRefusal, Operation, Outcome};
use records::site::is_out_of_service;
use records::state::tag_of;

// An outcome that writes no record but that of the object.
fn at_object(outcome: Outcome, place: Option<Place>) -> Decided
    ensures { result ≡ at_object outcome place }
{
    Decided {
        outcome,
        places: Places {
            point: place,
            credential: place,
            zone_to: place,
            zone_from: None,
        },
    }
}

// Whether the point that stands at a place is out of service.
fn is_out_of_service_at(site: &IndexedSite, place: Option<Place>) -> bool
    ensures { result ≡ (point_of (site_part place site.now)).out_of_service }
{
    is_out_of_service(site_part(site, place))
}

// The tag that it holds.
fn tag_at(state: &[u8], place: Option<Place>) -> u32
    ensures { result ≡ (point_state_of (state_part place state.now)).tag }
{
    tag_of(state_part(state, place))
}

// The count of its Zone_To.
#[tactic(auto, unfolding(crate::specs::Gather::count_to))]
fn count_to_at(site: &IndexedSite, state: &[u8], place: Option<Place>) -> u32
    ensures { result ≡ count_to place site.now state.now }
{
    count_at(state, zone_to_at(site, place))
}

// A factor read at the point that stands at a place, in service.
#[tactic(auto, unfolding(crate::specs::Decide::served_at))]
fn served_at(site: &IndexedSite, state: &[u8], e: Entry, place: Option<Place>) -> Decided
    ensures { result ≡ served_at place e site.now state.now }
{
    let g = gather(site, state, e, place);
    Decided {
        outcome: decide(site, g.situation, e),
        places: g.places,
    }
}

// A factor read at the point that stands at a place. Out of service, nothing else is looked up or read.
#[tactic(auto, unfolding(crate::specs::Decide::read_at))]
fn factor_read_at(site: &IndexedSite, state: &[u8], e: Entry, place: Option<Place>) -> Decided
    ensures { result ≡ read_at place e site.now state.now }
{
    if is_out_of_service_at(site, place) {
        let count = count_to_at(site, state, place);
        let outcome = operations::out_of_service_outcome(tag_at(state, place), count);
        return at_object(outcome, None);
    }
    served_at(site, state, e, place)
}

// Operation 5 at the point that stands at a place.
fn service_at(site: &IndexedSite, state: &[u8], e: Entry, place: Option<Place>) -> Outcome
    ensures { result ≡ service_outcome e (point_state_of (state_part place state.now)) (count_to place site.now state.now) }
{
    let held = read_state(state, place);
    operations::service_outcome(e, held, count_to_at(site, state, place))
}

// What is decided is done: its records are written, and its answer is given. It is inlined at each operation: with all of them joined to one outcome first,
// an entry of operation 3 runs half as many instructions again.
#[inline(always)]
fn done(state: &mut [u8], d: Decided) -> Answer
    ensures state_after { state.new ≡ applied d.outcome d.places state.old }
    ensures answer { result ≡ d.outcome.answer }
{
    apply_outcome(state, d.outcome, d.places);
    d.outcome.answer
}

// The operation at its object, which stands at a place.
fn worked(
    site: &IndexedSite,
    state: &mut [u8],
    operation: Operation,
    e: Entry,
    place: Option<Place>,
) -> Answer
    ensures state_after { state.new ≡ applied (worked_at (Some operation) place e site.now state.old).outcome (worked_at (Some operation) place e site.now state.old).places state.old }
    ensures answer { result ≡ (worked_at (Some operation) place e site.now state.old).outcome.answer }
{
    match operation {
        Operation::Factor => {
            let d = factor_read_at(site, state, e, place);
            done(state, d)
        }
        Operation::SetCount => done(
            state,
            at_object(operations::count_outcome(e, e.amount), place),
        ),
        Operation::AdjustCount => {
            let count = count_at(state, place);
            done(
                state,
                at_object(operations::adjust_outcome(e, count), place),
            )
        }
        Operation::SetDisable => {
            let held = read_state(state, place);
            done(
                state,
                at_object(operations::disable_outcome(e, held), place),
            )
        }
        Operation::SetService => {
            let outcome = service_at(site, state, e, place);
            done(state, at_object(outcome, place))
        }
    }
}

// The operation of an entry, and where its object stands: refusals 7 and 8.
#[tactic(auto, unfolding(crate::specs::Decide::decided_as, crate::specs::Decide::decided_on, model::specs::Entry::in_form))]
fn object_of(site: &IndexedSite, e: Entry) -> Result<(Operation, Place), EntryRefusal>
    ensures { (state : List ℕ) → or_refused (decided_at result e site.now state) ≡ decided_on site.now state e }
{
    let asked = form::operation_of(e.operation);
    let operation = asked
        .filter(|_| form::in_form(asked, e))
        .ok_or(EntryRefusal::Form)?;
    let i = object_place(site, asked, e.instance).ok_or(EntryRefusal::NoObject)?;
    Ok((operation, i))
}

// An entry that is refused writes nothing.
fn refused_as(r: EntryRefusal) -> Decided
    ensures { result ≡ refused_as r }
{
    at_object(operations::refuse(r as u8), None)
}

#[tactic(auto, using(crate::proofs::Decisions::decided_outcome, crate::proofs::Decisions::stepped))]
pub fn step(site: &IndexedSite, state: &mut [u8], e: Entry) -> Answer
    requires { length state.old ≡ state_length site.now }
    ensures state_after { state.new ≡ state_of (apply (entry_outcome (panel site.now state.old) e) (panel site.now state.old)) }
    ensures answer { result ≡ (entry_outcome (panel site.now state.old) e).answer }
{
    match object_of(site, e) {
        Ok((operation, i)) => worked(site, state, operation, e, Some(i)),
        Err(r) => done(state, refused_as(r)),
    }
}
