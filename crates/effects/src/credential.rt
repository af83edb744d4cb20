// What a factor read leaves at the credential: uses, days, zone, wrong tries and disable, last use, last grant.
ghost use Rattle.std.specs.Prelude.{◌≡◌};
ghost use Rattle.model.specs.Effects.{zone_after, uses_after, loses_day, days_after, is_wrong_try, wrong_tries_with, reaches_most, wrong_tries_after, disable_reached, credential_after};

use crate::words::{count_kept, date_of};
use conditions::is_into_zone;
use model::numbers::{
    DENIED_AUTHENTICATION_FACTOR_TIMEOUT, DENIED_INCORRECT_AUTHENTICATION_FACTOR, DISABLE_LOCKOUT,
    GRANTED, NEVER, UNLIMITED,
};
use model::{CredentialState, Entry, PointId, Situation, ZoneId};

// A grant takes the credential into Zone_To, or out of Zone_From to nowhere. All three zones are ready numbers, so that plain ifs choose.
#[tactic(auto, unfolding(model::specs::Effects::zone_after))]
pub fn zone_after(v: Situation, x: u16) -> ZoneId
    ensures { result ≡ zone_after v x }
{
    let held = v.credential_state.zone;
    let left = if v.point.zone_from != ZoneId::NONE {
        ZoneId::NONE
    } else {
        held
    };
    let entered = if is_into_zone(v) {
        v.point.zone_to
    } else {
        left
    };
    if x != GRANTED { held } else { entered }
}

// A grant takes one of limited uses.
#[tactic(auto, unfolding(model::specs::Effects::uses_after))]
pub fn uses_after(v: Situation, x: u16) -> u16
    ensures { result ≡ uses_after v x }
{
    if (x == GRANTED) & (v.credential_state.uses != UNLIMITED) {
        v.credential_state.uses.saturating_sub(1)
    } else {
        v.credential_state.uses
    }
}

// A grant takes one of limited days where it is the first of all, or of a later date than the last one.
#[tactic(auto, unfolding(model::specs::Effects::loses_day))]
pub fn loses_day(v: Situation, e: Entry, x: u16) -> bool
    ensures { result ≡ loses_day v e x }
{
    (x == GRANTED)
        & (v.credential_state.days != UNLIMITED)
        & ((v.credential_state.last_grant == NEVER)
            | (date_of(v.credential_state.last_grant) < date_of(e.time)))
}

#[tactic(auto, unfolding(model::specs::Effects::days_after))]
pub fn days_after(v: Situation, e: Entry, x: u16) -> u16
    ensures { result ≡ days_after v e x }
{
    if loses_day(v, e, x) {
        v.credential_state.days.saturating_sub(1)
    } else {
        v.credential_state.days
    }
}

// A wrong code or one that came too late, of a credential that counts them. It and what follows are definitions of their own beside those of a point's failures.
#[tactic(auto, unfolding(model::specs::Effects::is_wrong_try))]
pub fn is_wrong_try(v: Situation, x: u16) -> bool
    ensures { result ≡ is_wrong_try v x }
{
    (v.credential.most_wrong_tries != 0)
        & ((x == DENIED_AUTHENTICATION_FACTOR_TIMEOUT)
            | (x == DENIED_INCORRECT_AUTHENTICATION_FACTOR))
}

// The wrong tries with this one; 256 needs a second byte.
#[tactic(auto, unfolding(model::specs::Effects::wrong_tries_with))]
pub fn wrong_tries_with(v: Situation) -> u16
    ensures { result ≡ wrong_tries_with v }
{
    u16::from(v.credential_state.wrong_tries) + 1
}

// The event is the wrong try that locks the credential out.
#[tactic(auto, unfolding(model::specs::Effects::reaches_most))]
pub fn reaches_most(v: Situation, x: u16) -> bool
    ensures { result ≡ reaches_most v x }
{
    is_wrong_try(v, x) & (u16::from(v.credential.most_wrong_tries) <= wrong_tries_with(v))
}

#[tactic(auto, unfolding(model::specs::Effects::reaches_most, model::specs::Effects::wrong_tries_after))]
pub fn wrong_tries_after(v: Situation, x: u16) -> u8
    ensures { result ≡ wrong_tries_after v x }
{
    count_kept(
        x == GRANTED,
        is_wrong_try(v, x),
        v.credential.most_wrong_tries,
        wrong_tries_with(v),
        v.credential_state.wrong_tries,
    )
}

// A credential at its most is locked out, whatever its disable was.
#[tactic(auto, unfolding(model::specs::Effects::disable_reached))]
pub fn disable_reached(v: Situation, x: u16) -> u8
    ensures { result ≡ disable_reached v x }
{
    if reaches_most(v, x) {
        DISABLE_LOCKOUT
    } else {
        v.credential_state.disable
    }
}

// The credential's state after the event. It is set field by field, as the point's is: as struct literals the two run 5 % more instructions in a
// journal of reads.
#[tactic(auto, unfolding(model::specs::Effects::credential_after))]
pub fn credential_after(v: Situation, e: Entry, x: u16) -> CredentialState
    ensures { result ≡ credential_after v e x }
{
    let held = v.credential_state;
    let granted = x == GRANTED;
    let entering = granted & is_into_zone(v);
    let mut c = held;
    c.uses = uses_after(v, x);
    c.days = days_after(v, e, x);
    c.last_use = e.time;
    c.zone = zone_after(v, x);
    c.entered = if entering { e.time } else { held.entered };
    c.last_event = x;
    c.disable = disable_reached(v, x);
    c.wrong_tries = wrong_tries_after(v, x);
    c.last_point = PointId(e.instance);
    c.last_grant = if granted { e.time } else { held.last_grant };
    c
}
