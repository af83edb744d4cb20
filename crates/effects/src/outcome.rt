// The outcome of an event: counts, the answer, and the state records that are written.
ghost use Rattle.std.specs.Prelude.{◌≡◌};
ghost use Rattle.model.specs.Effects.{counts, count_after, answer_with, outcome_with, outcome_of};

use crate::Event;
use crate::credential::credential_after;
use crate::marks::{marks_of, named_of};
use crate::point::point_after;
use crate::words::next_tag;
use model::numbers::{GRANTED, NO_EVENT, NOT_REFUSED};
use model::{Answer, CredentialId, Entry, Outcome, PointId, PointState, Situation, Write};

// The event is a counted passage of a zone.
#[tactic(auto, unfolding(model::specs::Effects::counts))]
pub fn counts_at(v: Situation, x: u16, counting: bool) -> bool
    ensures { result ≡ counts v x counting }
{
    (x == GRANTED) & v.point.count_adjust & counting
}

// Zone_To's count after the event.
#[tactic(auto, unfolding(model::specs::Effects::count_after))]
fn count_after(event: Event) -> u32
    ensures { result ≡ count_after event.v event.x }
{
    let count = event.v.count_to;
    if counts_at(event.v, event.x, event.v.zone_to.counting) {
        count + 1
    } else {
        count
    }
}

#[tactic(auto, unfolding(model::specs::Effects::answer_with))]
fn answer_with(event: Event, marks: u8, named: CredentialId) -> Answer
    ensures { result ≡ answer_with event.v event.x marks named }
{
    Answer {
        event: event.x,
        marks,
        refusal: NOT_REFUSED,
        tag: next_tag(event.v.point_state.tag),
        credential: named,
        count: count_after(event),
    }
}

// What follows from an event: marks, the credential named and the point's state are those of the operation.
#[tactic(auto, unfolding(model::specs::Effects::outcome_with))]
pub fn outcome_with(
    event: Event,
    e: Entry,
    marks: u8,
    named: CredentialId,
    point: PointState,
) -> Outcome
    ensures { result ≡ outcome_with event.v e event.x marks named point }
{
    let v = event.v;
    let x = event.x;
    Outcome {
        answer: answer_with(event, marks, named),
        point: Some(Write {
            instance: PointId(e.instance),
            state: point,
        }),
        credential: (x != NO_EVENT).then(|| Write {
            instance: named,
            state: credential_after(v, e, x),
        }),
        zone_to: counts_at(v, x, v.zone_to.counting).then_some(Write {
            instance: v.point.zone_to,
            state: count_after(event),
        }),
        zone_from: counts_at(v, x, v.zone_from.counting).then_some(Write {
            instance: v.point.zone_from,
            state: v.count_from.saturating_sub(1),
        }),
    }
}

// What a factor read does, at a point in service, that came to the event x.
#[tactic(auto, unfolding(model::specs::Effects::outcome_of))]
pub fn factor_outcome(event: Event, e: Entry) -> Outcome
    ensures { result ≡ outcome_of event.v e event.x }
{
    let v = event.v;
    let x = event.x;
    outcome_with(
        event,
        e,
        marks_of(v, e, x),
        named_of(v, x),
        point_after(v, e, x),
    )
}
