// Steps 6 to 11: master exemption, mode, threat level, rules, passback, limits, a count that is full.
ghost use Rattle.std.specs.Prelude.{◌≡◌};
ghost use Rattle.model.specs.Checks.{at_lower_limit, at_upper_limit, authorization_of, authorization, passage, permission};

use conditions::{has_reached, is_into_zone, is_passback_violated};
use model::{Authorization, Entry, Situation, Verdict, numbers};

#[tactic(auto, unfolding(model::specs::Checks::at_lower_limit))]
pub fn is_at_lower_limit(v: Situation) -> bool
    ensures { result ≡ at_lower_limit v }
{
    !v.credential.occupancy_exempt
        & v.point.lower_enforced
        & v.zone_from.counting
        & (v.zone_from.lower_limit != 0)
        & (v.count_from <= v.zone_from.lower_limit)
}

#[tactic(auto, unfolding(model::specs::Checks::at_upper_limit))]
pub fn is_at_upper_limit(v: Situation) -> bool
    ensures { result ≡ at_upper_limit v }
{
    !v.credential.occupancy_exempt
        & v.point.upper_enforced
        & v.zone_to.counting
        & (v.zone_to.upper_limit != 0)
        & has_reached(v.count_to, v.zone_to.upper_limit)
}

// What steps 7 to 10 find, with what the rules say.
#[tactic(auto, unfolding(model::specs::Checks::authorization_of))]
pub fn authorization_of(v: Situation, rules: Verdict, e: Entry) -> Authorization
    ensures { result ≡ authorization_of v rules e }
{
    Authorization {
        deny_all: v.point.mode == numbers::MODE_DENY_ALL,
        threat: v.credential.threat_authority < v.point.threat_level,
        negative: (v.point.mode == numbers::MODE_AUTHORIZE) & rules.negative_fits,
        no_positive: (v.point.mode == numbers::MODE_AUTHORIZE) & !rules.positive_fits,
        positive_located: rules.positive_located,
        into_zone: is_into_zone(v),
        hard_passback: is_passback_violated(v, e) & (v.zone_to.passback == numbers::PASSBACK_HARD),
        at_lower_limit: is_at_lower_limit(v),
        at_upper_limit: is_at_upper_limit(v),
    }
}

// Their event, where one of them gives one.
pub fn authorize(k: Authorization) -> Option<u16>
    ensures { result ≡ authorization k }
{
    if k.deny_all {
        return Some(numbers::DENIED_DENY_ALL);
    }
    if k.threat {
        return Some(numbers::DENIED_THREAT_LEVEL);
    }
    if k.negative {
        return Some(numbers::DENIED_NO_ACCESS_RIGHTS);
    }
    if k.no_positive {
        if k.positive_located {
            return Some(numbers::DENIED_OUT_OF_TIME_RANGE);
        }
        if k.into_zone {
            return Some(numbers::DENIED_ZONE_NO_ACCESS_RIGHTS);
        }
        return Some(numbers::DENIED_POINT_NO_ACCESS_RIGHTS);
    }
    if k.hard_passback {
        return Some(numbers::DENIED_PASSBACK);
    }
    if k.at_lower_limit {
        return Some(numbers::DENIED_LOWER_OCCUPANCY_LIMIT);
    }
    k.at_upper_limit
        .then_some(numbers::DENIED_UPPER_OCCUPANCY_LIMIT)
}

// Step 11: a count that is full.
#[tactic(auto, unfolding(model::specs::Checks::passage))]
pub fn passage_of(v: Situation) -> Option<u16>
    ensures { result ≡ passage v }
{
    let is_full = v.point.count_adjust
        & v.zone_to.counting
        & (v.count_to == numbers::LARGEST_COUNT);
    is_full.then_some(numbers::DENIED_OTHER)
}

// Steps 6 to 11: a master exemption skips to step 11.
#[tactic(auto, unfolding(model::specs::Checks::permission))]
pub fn permit(v: Situation, rules: Verdict, e: Entry) -> Option<u16>
    ensures { result ≡ permission v rules e }
{
    let last = passage_of(v);
    if v.credential.master {
        return last;
    }
    authorize(authorization_of(v, rules, e)).or(last)
}
