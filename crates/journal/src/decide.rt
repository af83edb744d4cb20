// The outcome of a factor read at a point in service, of its situation by value: the order of checks, then the effects. Of the site only the rules are read,
// where step 9 asks them.
ghost use Rattle.std.specs.Prelude.{◌≡◌};
ghost use Rattle.model.specs.Site.{records};
ghost use Rattle.model.specs.Checks.{event_of};
ghost use Rattle.checks.specs.Moves.{before_permission};
ghost use Rattle.journal.specs.Decide.{rules_of, read_outcome};

use effects::{Event, outcome};
use index::IndexedSite;
use model::{Entry, Outcome, PointId, Situation, Verdict};
use rules::Asked;

// What the rules say, where step 9 asks them; else nothing, which changes no event.
#[tactic(auto, using(checks::proofs::Moves::rules_unasked))]
fn rules_for(site: &IndexedSite, v: Situation, e: Entry, before: Option<u16>) -> Verdict
    requires { before ≡ before_permission v e }
    ensures { event_of v result e ≡ event_of v (rules_of v e (records site.now)) e }
{
    if !checks::asks_rules(v, before) {
        return checks::no_verdict();
    }
    let asked = Asked {
        first: v.credential.first_rights,
        second: v.credential.second_rights,
        point: PointId(e.instance),
        to: v.point.zone_to,
        time: e.time,
    };
    rules::verdict_of(site, asked)
}

#[tactic(auto, using(checks::proofs::Moves::event_moves, checks::proofs::Room::event_room), unfolding(crate::specs::Decide::read_outcome))]
pub fn decide(site: &IndexedSite, v: Situation, e: Entry) -> Outcome
    ensures { result ≡ read_outcome v (rules_of v e (records site.now)) e }
{
    let before = checks::before_permission(v, e);
    let rules = rules_for(site, v, e, before);
    let event = Event {
        v,
        x: checks::event_after(v, rules, e, before),
    };
    outcome::factor_outcome(event, e)
}
