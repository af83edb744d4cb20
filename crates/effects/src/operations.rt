// Operations 2 to 5, and the outcomes that write no state.
ghost use Rattle.std.specs.Prelude.{◌≡◌, ◌≤◌, SomeIff};
ghost use Rattle.model.specs.Numbers as n;
ghost use Rattle.model.specs.Numbers.{not_refused};
ghost use Rattle.model.specs.Step.{no_answer, unchanged, refuse, count_outcome, adjusted, adjust_outcome, disable_after, disable_outcome, locks, service_after, service_outcome};

use crate::words::next_tag;
use model::numbers::{
    ARGUMENT_LOCK, FIRST_NEGATIVE, LOCKOUT_OTHER, LOCKOUT_RELINQUISHED, NO_EVENT, NOT_REFUSED,
};
use model::{
    Answer, CredentialId, CredentialState, Entry, EntryRefusal, Outcome, PointId, PointState,
    Write, ZoneId,
};

// ---- outcomes that write no state

fn no_answer(refusal: u8, tag: u32, count: u32) -> Answer
    ensures { result ≡ no_answer refusal tag count }
{
    Answer {
        event: NO_EVENT,
        marks: 0,
        refusal,
        tag,
        credential: CredentialId::NONE,
        count,
    }
}

// An answer, and nothing written.
#[tactic(auto, unfolding(model::specs::Step::unchanged))]
pub fn unchanged(a: Answer) -> Outcome
    ensures { result ≡ unchanged a }
{
    Outcome {
        answer: a,
        point: None,
        credential: None,
        zone_to: None,
        zone_from: None,
    }
}

// An answer that refuses.
#[tactic(auto, unfolding(model::specs::Step::refuse))]
pub fn refuse(n: u8) -> Outcome
    ensures { result ≡ refuse n }
{
    unchanged(no_answer(n, 0, 0))
}

// A factor read at a point that is out of service: the tag as held, and Zone_To's count.
pub fn out_of_service_outcome(tag: u32, count: u32) -> Outcome
    ensures { result ≡ unchanged (no_answer not_refused tag count) }
{
    unchanged(no_answer(NOT_REFUSED, tag, count))
}

// ---- operations 2 and 3: a zone's count

// Operation 2 with its amount; operation 3 with what it comes to.
#[tactic(auto, unfolding(model::specs::Step::unchanged, model::specs::Step::count_outcome))]
pub fn count_outcome(e: Entry, n: u32) -> Outcome
    ensures { result ≡ count_outcome e n }
{
    Outcome {
        zone_to: Some(Write {
            instance: ZoneId(e.instance),
            state: n,
        }),
        ..unchanged(no_answer(NOT_REFUSED, 0, n))
    }
}

// A count and a signed amount together, below zero becoming 0; None where the count has no room.
#[tactic(auto, unfolding(model::specs::Step::adjusted, model::specs::Step::is_negative))]
fn adjusted_by(count: u32, amount: u32) -> Option<u32>
    ensures { SomeIff result (adjusted count amount ≤ n.largest_count) (adjusted count amount) }
{
    if FIRST_NEGATIVE <= amount {
        Some(count.saturating_sub(amount.wrapping_neg()))
    } else {
        count.checked_add(amount)
    }
}

// Refusal 9 where the count has no room.
#[tactic(auto, unfolding(model::specs::Step::adjust_outcome))]
pub fn adjust_outcome(e: Entry, n: u32) -> Outcome
    ensures { result ≡ adjust_outcome e n }
{
    match adjusted_by(n, e.amount) {
        None => refuse(EntryRefusal::Count as u8),
        Some(count) => count_outcome(e, count),
    }
}

// ---- operation 4: a credential's disable; its wrong tries begin again

#[tactic(auto, unfolding(model::specs::Step::disable_after))]
fn disable_after(held: CredentialState, disable: u8) -> CredentialState
    ensures { result ≡ disable_after held disable }
{
    CredentialState {
        disable,
        wrong_tries: 0,
        ..held
    }
}

#[tactic(auto, unfolding(model::specs::Step::unchanged, model::specs::Step::disable_outcome))]
pub fn disable_outcome(e: Entry, c: CredentialState) -> Outcome
    ensures { result ≡ disable_outcome e c }
{
    let named = CredentialId(e.instance);
    let answer = Answer {
        credential: named,
        ..no_answer(NOT_REFUSED, 0, 0)
    };
    Outcome {
        credential: Some(Write {
            instance: named,
            state: disable_after(c, e.argument),
        }),
        ..unchanged(answer)
    }
}

// ---- operation 5: a point in service or not

// The entry locks the point; else it unlocks it.
#[tactic(auto, unfolding(model::specs::Step::locks))]
fn is_lock(e: Entry) -> bool
    ensures { result ≡ locks e }
{
    e.argument == ARGUMENT_LOCK
}

#[tactic(auto, unfolding(model::specs::Step::service_after))]
fn service_after(e: Entry, held: PointState) -> PointState
    ensures { result ≡ service_after e held }
{
    let locking = is_lock(e);
    let waiting_credential = if locking {
        CredentialId::NONE
    } else {
        held.waiting_credential
    };
    PointState {
        tag: next_tag(held.tag),
        failures: if locking { held.failures } else { 0 },
        locked: locking,
        lock_time: if locking { e.time } else { held.lock_time },
        waiting_credential,
        ..held
    }
}

#[tactic(auto, unfolding(model::specs::Step::unchanged, model::specs::Step::service_outcome))]
pub fn service_outcome(e: Entry, p: PointState, n: u32) -> Outcome
    ensures { result ≡ service_outcome e p n }
{
    let locking = is_lock(e);
    let answer = Answer {
        event: if locking {
            LOCKOUT_OTHER
        } else {
            LOCKOUT_RELINQUISHED
        },
        ..no_answer(NOT_REFUSED, next_tag(p.tag), n)
    };
    Outcome {
        point: Some(Write {
            instance: PointId(e.instance),
            state: service_after(e, p),
        }),
        ..unchanged(answer)
    }
}
