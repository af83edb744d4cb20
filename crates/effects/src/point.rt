// What a factor read leaves at the point: failures, lockout, wait.
ghost use Rattle.std.specs.Prelude.{◌≡◌};
ghost use Rattle.model.specs.Effects.{is_failure, failures_before, is_first_failure, failures_with, locks_out, point_after};

use crate::words::{count_kept, next_tag};
use conditions::{elapsed, is_relinquished, is_still_locked};
use model::numbers::{
    DENIED_AUTHENTICATION_FACTOR_ERROR, DENIED_LOCKOUT, DENIED_UNKNOWN_CREDENTIAL, GRANTED,
    NO_EVENT,
};
use model::{CredentialId, Entry, PointState, Situation};

// The event is a failure, at a point that counts failures.
#[tactic(auto, unfolding(model::specs::Effects::is_failure))]
pub fn is_failure(v: Situation, x: u16) -> bool
    ensures { result ≡ is_failure v x }
{
    (v.point.most_failures != 0)
        & ((x == DENIED_UNKNOWN_CREDENTIAL) | (x == DENIED_AUTHENTICATION_FACTOR_ERROR))
}

// The failures so far: none where the lock was relinquished.
#[tactic(auto, unfolding(model::specs::Effects::failures_before))]
pub fn failures_before(v: Situation, e: Entry) -> u8
    ensures { result ≡ failures_before v e }
{
    if is_relinquished(v, e) {
        0
    } else {
        v.point_state.failures
    }
}

// A failure would be the first since zero, or the first of a new window.
#[tactic(auto, unfolding(model::specs::Effects::is_first_failure))]
pub fn is_first_failure(v: Situation, e: Entry) -> bool
    ensures { result ≡ is_first_failure v e }
{
    (failures_before(v, e) == 0)
        | ((v.point.failure_window != 0)
            & (v.point.failure_window < elapsed(e.time, v.point_state.first_failure)))
}

// The failures with this one; 256 needs a second byte.
#[tactic(auto, unfolding(model::specs::Effects::failures_with))]
pub fn failures_with(v: Situation, e: Entry) -> u16
    ensures { result ≡ failures_with v e }
{
    if is_first_failure(v, e) {
        1
    } else {
        u16::from(failures_before(v, e)) + 1
    }
}

// The event is the failure that locks the point.
#[tactic(auto, unfolding(model::specs::Effects::locks_out))]
pub fn locks_out(v: Situation, e: Entry, x: u16) -> bool
    ensures { result ≡ locks_out v e x }
{
    is_failure(v, x) & (u16::from(v.point.most_failures) <= failures_with(v, e))
}

// The point's state after the event. It is set field by field, as the credential's is: as struct literals the two run 5 % more instructions in a
// journal of reads.
#[tactic(auto, unfolding(model::specs::Effects::locks_out, model::specs::Effects::point_after))]
pub fn point_after(v: Situation, e: Entry, x: u16) -> PointState
    ensures { result ≡ point_after v e x }
{
    let held = v.point_state;
    let failing = is_failure(v, x);
    let locking = locks_out(v, e, x);
    let first = failing & is_first_failure(v, e);
    // 161 leaves a wait, event 0 begins one, every other event ends it.
    let begun = x == NO_EVENT;
    let wait = if x == DENIED_LOCKOUT {
        held.waiting_credential
    } else {
        CredentialId::NONE
    };
    let mut p = held;
    p.tag = next_tag(held.tag);
    p.failures = count_kept(
        x == GRANTED,
        failing,
        v.point.most_failures,
        failures_with(v, e),
        failures_before(v, e),
    );
    p.locked = locking | is_still_locked(v, e);
    p.lock_time = if locking { e.time } else { held.lock_time };
    p.first_failure = if first { e.time } else { held.first_failure };
    p.waiting_credential = if begun { v.number } else { wait };
    p.waiting_since = if begun { e.time } else { held.waiting_since };
    p
}
