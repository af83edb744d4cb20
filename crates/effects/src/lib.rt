// What an entry does, by value: what follows from the event that the order of checks came to, and the outcomes of the other operations.
#![tactic(auto)]

ghost use Rattle.conditions.specs.Room.{Room};

pub mod words; // words.rt: tags, dates, counts up to a most
pub mod point; // point.rt: failures, lockout and wait at the point
pub mod credential; // credential.rt: uses, days and zone of the credential
pub mod marks; // marks.rt: the credential that an answer names, and its marks
pub mod outcome; // outcome.rt: counts, the answer and the outcome of an event
pub mod operations; // operations.rt: operations 2 to 5, and outcomes that write nothing

use model::Situation;

// The event to which the order of checks comes in a situation. Where it counts a passage, Zone_To's count has room for one more. What does not need
// that takes situation, event and entry each by itself, as the definitions do.
#[derive(Clone, Copy)]
pub struct Event {
    pub v: Situation,
    pub x: u16,
    pub ghost room: { Room v x },
}
