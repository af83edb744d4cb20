// The order of checks of document 01, operation 1, in two moves: the event that a factor read at a point comes to.
// Steps 1 to 5 come first and are worked once; then the rules are walked where step 9 asks them, and steps 6 to 12 follow.
#![tactic(auto)]

ghost use Rattle.std.specs.Prelude.{◌≡◌};
ghost use Rattle.checks.specs.Moves.{before_permission, asks_rules, no_verdict, event_after};

pub mod authentication; // authentication.rt: steps 1 to 4
pub mod validity; // validity.rt: step 5
pub mod authorization; // authorization.rt: steps 6 to 11

use authentication::{authenticate, authentication_of};
use authorization::permit;
use model::{Entry, Situation, Verdict, numbers};
use validity::validity_event;

// Steps 1 to 5: their event, where one of them gives one.
#[tactic(auto, unfolding(crate::specs::Moves::before_permission))]
pub fn before_permission(v: Situation, e: Entry) -> Option<u16>
    ensures { result ≡ before_permission v e }
{
    authenticate(authentication_of(v, e)).or_else(|| validity_event(v, e))
}

// Step 9 is reached: the rules are needed. `before` is what the steps up to 5 came to.
#[tactic(auto, unfolding(crate::specs::Moves::asks_rules))]
pub fn asks_rules(v: Situation, before: Option<u16>) -> bool
    ensures { result ≡ asks_rules v before }
{
    (v.point.mode == numbers::MODE_AUTHORIZE)
        & !v.credential.master
        & !(v.credential.threat_authority < v.point.threat_level)
        & before.is_none()
}

// What stands for the rules where they are not needed.
#[tactic(auto, unfolding(crate::specs::Moves::no_verdict))]
pub fn no_verdict() -> Verdict
    ensures { result ≡ no_verdict }
{
    Verdict::default()
}

// The event: that of the steps before, else that of steps 6 to 12.
#[tactic(auto, unfolding(crate::specs::Moves::event_after))]
pub fn event_after(v: Situation, rules: Verdict, e: Entry, before: Option<u16>) -> u16
    ensures { result ≡ event_after v rules e before }
{
    before
        .or_else(|| permit(v, rules, e))
        .unwrap_or(numbers::GRANTED)
}
