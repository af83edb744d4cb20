// Steps 1 to 4: lockout, factor timeout, factor, second factor.
ghost use Rattle.std.specs.Prelude.{◌≡◌};
ghost use Rattle.model.specs.Checks.{overdue, disabled_factor, disabled_event, first_of_two, authentication_of, authentication};

use conditions::{elapsed, is_still_locked, is_waiting};
use model::{Authentication, Entry, Situation, numbers};

// The second factor comes later than a set timeout.
#[tactic(auto, unfolding(model::specs::Checks::overdue))]
pub fn is_overdue(v: Situation, e: Entry) -> bool
    ensures { result ≡ overdue v e }
{
    is_waiting(v)
        & (v.point.factor_timeout != 0)
        & (u32::from(v.point.factor_timeout) < elapsed(e.time, v.point_state.waiting_since))
}

// The event of a disabled factor.
#[tactic(auto, unfolding(model::specs::Checks::disabled_factor))]
pub fn disabled_factor(d: u8) -> u16
    ensures { result ≡ disabled_factor d }
{
    match d {
        numbers::FACTOR_DISABLED => numbers::DENIED_AUTHENTICATION_FACTOR_DISABLED,
        numbers::FACTOR_LOST => numbers::DENIED_AUTHENTICATION_FACTOR_LOST,
        numbers::FACTOR_STOLEN => numbers::DENIED_AUTHENTICATION_FACTOR_STOLEN,
        numbers::FACTOR_DAMAGED => numbers::DENIED_AUTHENTICATION_FACTOR_DAMAGED,
        _ => numbers::DENIED_AUTHENTICATION_FACTOR_DESTROYED,
    }
}

// The event of the factor that was read, where one matched and is disabled.
fn disabled_event(factor_disable: Option<u8>) -> Option<u16>
    ensures { result ≡ disabled_event factor_disable }
{
    match factor_disable {
        None | Some(numbers::FACTOR_DISABLE_NONE) => None,
        Some(d) => Some(disabled_factor(d)),
    }
}

// The factor is the first of the two that the point wants.
#[tactic(auto, unfolding(model::specs::Checks::first_of_two))]
pub fn is_first_of_two(v: Situation) -> bool
    ensures { result ≡ first_of_two v }
{
    !is_waiting(v) & (v.point.factors_wanted == numbers::TWO_FACTORS)
}

// What steps 1 to 4 find.
#[tactic(auto, unfolding(model::specs::Checks::authentication_of))]
pub fn authentication_of(v: Situation, e: Entry) -> Authentication
    ensures { result ≡ authentication_of v e }
{
    Authentication {
        locked: is_still_locked(v, e),
        overdue: is_overdue(v, e),
        error: e.argument == numbers::FORMAT_ERROR,
        unmatched: v.factor_disable.is_none(),
        waiting: is_waiting(v),
        disabled: disabled_event(v.factor_disable),
        first_of_two: is_first_of_two(v),
    }
}

// Their event, where one of them gives one.
pub fn authenticate(k: Authentication) -> Option<u16>
    ensures { result ≡ authentication k }
{
    if k.locked {
        return Some(numbers::DENIED_LOCKOUT);
    }
    if k.overdue {
        return Some(numbers::DENIED_AUTHENTICATION_FACTOR_TIMEOUT);
    }
    if k.error {
        return Some(numbers::DENIED_AUTHENTICATION_FACTOR_ERROR);
    }
    if k.unmatched {
        if k.waiting {
            return Some(numbers::DENIED_INCORRECT_AUTHENTICATION_FACTOR);
        }
        return Some(numbers::DENIED_UNKNOWN_CREDENTIAL);
    }
    k.disabled.or(k.first_of_two.then_some(numbers::NO_EVENT))
}
