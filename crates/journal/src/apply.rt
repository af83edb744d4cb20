// The state records that an outcome writes: each is lent, as its 32-byte part of the state, to its writer.
ghost use Rattle.std.specs.Prelude.{◌≡◌};
ghost use Rattle.journal.specs.Places.{write_place, written, applied};

use super::Places;
use index::Place;
use model::numbers::{NONE, RECORD_SIZE};
use model::{Outcome, Write};
use records::ToRecord;
use site::object::Object;

// Where a write is made: at its place in the state, if that is one of its n records.
#[tactic(auto, unfolding(crate::specs::Places::write_place))]
fn write_place(instance: u32, place: Option<Place>, n: usize) -> Option<usize>
    ensures { result ≡ write_place instance place n }
{
    if instance == NONE {
        return None;
    }
    place.map(|p| p.state).filter(|i| *i < n)
}

#[tactic(auto, using(crate::proofs::At::place_below_law), unfolding(octets::specs::Octets::with_part))]
fn write<I: Object, S: ToRecord>(state: &mut [u8], made: Option<Write<I, S>>, place: Option<Place>)
    ensures { state.new ≡ written I.instance S.record_of made place state.old }
{
    let Some(w) = made else {
        return;
    };
    let n = octets::group_count::<RECORD_SIZE>(state);
    let Some(i) = write_place(w.instance.instance(), place, n) else {
        return;
    };
    let start = i * RECORD_SIZE;
    let end = start + RECORD_SIZE;
    w.state.write_record(&mut state[start..end]);
}

// It is inlined where an operation's outcome is applied (`done`), since most write one record, and which one is known there.
#[tactic(auto, unfolding(crate::specs::Places::applied))]
#[inline(always)]
pub fn apply_outcome(state: &mut [u8], o: Outcome, at: Places)
    ensures { state.new ≡ applied o at state.old }
{
    write(state, o.zone_from, at.zone_from);
    write(state, o.zone_to, at.zone_to);
    write(state, o.credential, at.credential);
    write(state, o.point, at.point);
}
