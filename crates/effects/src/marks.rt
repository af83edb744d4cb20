// The credential that an answer names, and the marks of an answer.
ghost use Rattle.std.specs.Prelude.{◌≡◌, ◌≤◌};
ghost use Rattle.model.specs.Effects as m;
ghost use Rattle.model.specs.Effects.{named, soft_passback, credential_marks, marks};

use crate::point::locks_out;
use conditions::{is_passback_violated, is_relinquished, is_waiting};
use model::numbers::{
    DENIED_AUTHENTICATION_FACTOR_ERROR, DENIED_LOCKOUT, DENIED_LOWER_OCCUPANCY_LIMIT, DENIED_OTHER,
    DENIED_UPPER_OCCUPANCY_LIMIT, GRANTED, MARK_EXTENDED_UNLOCK, MARK_FACTOR_READ,
    MARK_LOCKOUT_MAX_ATTEMPTS, MARK_LOCKOUT_RELINQUISHED, MARK_MUSTER, MARK_PASSBACK_DETECTED,
    MARK_TRACE, PASSBACK_SOFT,
};
use model::{CredentialId, Entry, Situation};

// The credential that the answer to a factor read names.
#[tactic(auto, unfolding(model::specs::Effects::named))]
pub fn named_of(v: Situation, x: u16) -> CredentialId
    ensures { result ≡ named v x }
{
    if !is_waiting(v) & ((x == DENIED_LOCKOUT) | (x == DENIED_AUTHENTICATION_FACTOR_ERROR)) {
        CredentialId::NONE
    } else {
        v.number
    }
}

// Passback was violated at a soft zone, and the checks went past it.
#[tactic(auto, unfolding(model::specs::Effects::soft_passback))]
pub fn soft_passback(v: Situation, e: Entry, x: u16) -> bool
    ensures { result ≡ soft_passback v e x }
{
    !v.credential.master
        & is_passback_violated(v, e)
        & (v.zone_to.passback == PASSBACK_SOFT)
        & ((x == DENIED_LOWER_OCCUPANCY_LIMIT)
            | (x == DENIED_UPPER_OCCUPANCY_LIMIT)
            | (x == DENIED_OTHER)
            | (x == GRANTED))
}

// What a mark adds where it is set: a flag chooses, since the worth is a constant.
fn mark(on: bool, worth: u8) -> u8
    ensures value { result ≡ m.mark on worth }
    ensures upper_bound { result ≤ worth }
{
    if on { worth } else { 0 }
}

// The marks that ask nothing of a factor read: c is the credential that is named.
#[tactic(auto, unfolding(model::specs::Effects::credential_marks))]
pub fn credential_marks(v: Situation, e: Entry, x: u16, c: CredentialId) -> u8
    ensures value { result ≡ credential_marks v e x c }
    ensures upper_bound { result ≤ 46 }
{
    let granted = x == GRANTED;
    mark((c != CredentialId::NONE) & v.credential.trace, MARK_TRACE)
        + mark(soft_passback(v, e, x), MARK_PASSBACK_DETECTED)
        + mark(granted & v.point.muster, MARK_MUSTER)
        + mark(granted & v.credential.extended_time, MARK_EXTENDED_UNLOCK)
}

// The marks of a factor read.
#[tactic(auto, unfolding(model::specs::Effects::marks))]
pub fn marks_of(v: Situation, e: Entry, x: u16) -> u8
    ensures { result ≡ marks v e x }
{
    mark(x != DENIED_LOCKOUT, MARK_FACTOR_READ)
        + credential_marks(v, e, x, named_of(v, x))
        + mark(locks_out(v, e, x), MARK_LOCKOUT_MAX_ATTEMPTS)
        + mark(is_relinquished(v, e), MARK_LOCKOUT_RELINQUISHED)
}
