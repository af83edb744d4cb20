// Step 5: the credential's dates, disable, uses and last use.
ghost use Rattle.std.specs.Prelude.{◌≡◌};
ghost use Rattle.model.specs.Checks.{inactive, validity_of, validity};

use conditions::elapsed;
use model::{Entry, Situation, Validity, numbers};

// Used before, and longer ago than the absentee days.
#[tactic(auto, unfolding(model::specs::Checks::inactive))]
pub fn is_inactive(last: u32, days: u16, time: u32) -> bool
    ensures { result ≡ inactive last days time }
{
    (last != numbers::NEVER)
        & (days != numbers::UNLIMITED)
        & (u64::from(days) * u64::from(numbers::SECONDS_OF_DAY) < u64::from(elapsed(time, last)))
}

// What step 5 finds.
#[tactic(auto, unfolding(model::specs::Checks::validity_of))]
pub fn validity_of(v: Situation, e: Entry) -> Validity
    ensures { result ≡ validity_of v e }
{
    Validity {
        not_yet_active: e.time < v.credential.activation,
        expired: v.credential.expiry < e.time,
        disabled: v.credential_state.disable == numbers::DISABLE_DISABLED,
        manual_disable: v.credential_state.disable == numbers::DISABLE_MANUAL,
        lockout: v.credential_state.disable == numbers::DISABLE_LOCKOUT,
        no_days: v.credential_state.days == 0,
        no_uses: v.credential_state.uses == 0,
        inactive: is_inactive(
            v.credential_state.last_use,
            v.credential.absentee_days,
            e.time,
        ),
    }
}

// Its event, where it gives one.
pub fn validate(k: Validity) -> Option<u16>
    ensures { result ≡ validity k }
{
    if k.not_yet_active {
        return Some(numbers::DENIED_CREDENTIAL_NOT_YET_ACTIVE);
    }
    if k.expired {
        return Some(numbers::DENIED_CREDENTIAL_EXPIRED);
    }
    if k.disabled {
        return Some(numbers::DENIED_CREDENTIAL_DISABLED);
    }
    if k.manual_disable {
        return Some(numbers::DENIED_CREDENTIAL_MANUAL_DISABLE);
    }
    if k.lockout {
        return Some(numbers::DENIED_CREDENTIAL_LOCKOUT);
    }
    if k.no_days {
        return Some(numbers::DENIED_CREDENTIAL_MAX_DAYS);
    }
    if k.no_uses {
        return Some(numbers::DENIED_CREDENTIAL_MAX_USES);
    }
    k.inactive.then_some(numbers::DENIED_CREDENTIAL_INACTIVITY)
}

// Step 5: its event in a situation, where it gives one.
pub fn validity_event(v: Situation, e: Entry) -> Option<u16>
    ensures { result ≡ validity (validity_of v e) }
{
    validate(validity_of(v, e))
}
