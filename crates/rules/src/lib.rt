// Step 9 of the order of checks: what the enabled rules of a credential's rights say at a point and a time.
// Rules are found by the index of the site. A rule is its record, a part of the lent site, and each field is read out of it where it is asked and not
// before.
#![tactic(auto)]

ghost use Rattle.std.specs.Prelude.{◌≡◌, [], ◌∷◌, ◌<◌, IfSome, take};
ghost use Rattle.model.specs.Site.{records, negative};
ghost use Rattle.model.specs.Checks.{enabled_rule, location_fits, weekday, weekday_before, minute_of_day, fits_within_day, fits_past_midnight, time_fits};
ghost use Rattle.index.specs.Index.{in_class};
ghost use Rattle.rules.specs.Walk.{found, both, findings, Gains, rule_classes, class_count};

use index::{Class, IndexedSite};
use model::layout::{RULE_DAY_MONDAY, RULE_DAY_SUNDAY};
use model::numbers::{
    ACCESS_RULE, DAYS_OF_WEEK, LOCATION_EVERYWHERE, LOCATION_POINT, LOCATION_ZONE, MINUTES_OF_DAY,
    SECONDS_OF_DAY, SECONDS_OF_MINUTE,
};
use model::{PointId, RightsId, Verdict, ZoneId};
use records::Record;
use records::fields::bit_of;
use records::site::{
    from_minute_of, instance_of, is_always, is_enabled, is_everywhere, is_negative, kind_of,
    location_kind_of, location_of, to_minute_of, weekdays_of,
};

// The classes of a rights number, everywhere, at a point, at its Zone_To; those of two.
const NUMBER_CLASSES: usize = 3;

const RULE_CLASSES: usize = 6;

// How many links of a chain are followed at most: rules of one rights number and location make long chains, so that more are than for a lookup.
const LONG_CHAIN: usize = 32;

// What the rules are asked: the rights numbers of a credential, a point with its Zone_To, a time.
#[derive(Clone, Copy)]
pub struct Asked {
    pub first: RightsId,
    pub second: RightsId,
    pub point: PointId,
    pub to: ZoneId,
    pub time: u32,
}

// The day of the week of a time, 0 for Monday. A remainder is known to fit what `as` narrows it to.
#[tactic(auto, unfolding(model::specs::Checks::weekday))]
pub fn weekday_of(time: u32) -> u8
    ensures value { result ≡ weekday time }
    ensures upper_bound { result < 7 }
{
    (time / SECONDS_OF_DAY % DAYS_OF_WEEK) as u8
}

// The day of the week before a day of the week: Sunday before Monday.
#[tactic(auto, unfolding(model::specs::Checks::weekday_before))]
pub fn weekday_before(day: u8) -> u8
    ensures value { result ≡ weekday_before day }
    ensures upper_bound { day < 7 → result < 7 }
{
    if day == RULE_DAY_MONDAY {
        return RULE_DAY_SUNDAY;
    }
    day - 1
}

// A remainder fits, as above.
#[tactic(auto, unfolding(model::specs::Checks::minute_of_day))]
pub fn minute_of_day(time: u32) -> u16
    ensures { result ≡ minute_of_day time }
{
    (time / SECONDS_OF_MINUTE % MINUTES_OF_DAY) as u16
}

// Whether a record is an enabled rule of either rights number. Records of another kind or number are passed over first; NONE is no rule's.
#[tactic(auto, unfolding(model::specs::Checks::enabled_rule))]
pub fn is_enabled_rule(part: &Record, first: RightsId, second: RightsId) -> bool
    ensures { result ≡ enabled_rule first second part.now }
{
    if kind_of(part) != ACCESS_RULE {
        return false;
    }
    let rights = RightsId(instance_of(part));
    if (rights != first) & (rights != second) {
        return false;
    }
    (rights != RightsId::NONE) & is_enabled(part)
}

// Whether a rule holds at a point with a Zone_To. The location is read only where its kind can fit.
#[tactic(auto, unfolding(model::specs::Checks::location_fits))]
pub fn location_fits(part: &Record, point: PointId, to: ZoneId) -> bool
    ensures { result ≡ location_fits point to part.now }
{
    if is_everywhere(part) {
        return true;
    }
    match location_kind_of(part) {
        LOCATION_POINT => PointId(location_of(part)) == point,
        LOCATION_ZONE => (to != ZoneId::NONE) && (ZoneId(location_of(part)) == to),
        _ => false,
    }
}

// Whether a time is in the window of a rule that ends on the day on which it began. A rule and a time stay two parameters, here and below, as in the definitions.
#[tactic(auto, unfolding(model::specs::Checks::fits_within_day))]
fn fits_within_day(part: &Record, time: u32) -> bool
    ensures { result ≡ fits_within_day time part.now }
{
    let today = bit_of(weekdays_of(part), weekday_of(time));
    let minute = minute_of_day(time);
    today & (from_minute_of(part) <= minute) & (minute < to_minute_of(part))
}

// Whether a time is in the window of a rule that ends on the day after: in its first half, or in the second half of the day before's.
#[tactic(auto, unfolding(model::specs::Checks::fits_past_midnight))]
fn fits_past_midnight(part: &Record, time: u32) -> bool
    ensures { result ≡ fits_past_midnight time part.now }
{
    let days = weekdays_of(part);
    let today = weekday_of(time);
    let before = weekday_before(today);
    let minute = minute_of_day(time);
    bit_of(days, today) & (from_minute_of(part) <= minute)
        | bit_of(days, before) & (minute < to_minute_of(part))
}

// Whether a rule holds at a time.
#[tactic(auto, unfolding(model::specs::Checks::time_fits, model::specs::Checks::crosses_midnight))]
pub fn time_fits(part: &Record, time: u32) -> bool
    ensures { result ≡ time_fits time part.now }
{
    if is_always(part) {
        return true;
    }
    if to_minute_of(part) < from_minute_of(part) {
        return fits_past_midnight(part, time);
    }
    fits_within_day(part, time)
}

// What is found so far, with what a rule of the rights adds to it that fits in location. Its hours are read only where they can change what is found.
#[tactic(auto, unfolding(crate::specs::Walk::both))]
fn with_located(v: Verdict, part: &Record, time: u32) -> Verdict
    ensures { result ≡ both v (found (negative part.now) (time_fits time part.now)) }
{
    let negative = is_negative(part);
    let located = Verdict {
        positive_located: v.positive_located | !negative,
        ..v
    };
    if (negative & v.negative_fits) | (!negative & v.positive_fits) {
        return located;
    }
    let timely = time_fits(part, time);
    Verdict {
        negative_fits: v.negative_fits | (negative & timely),
        positive_fits: v.positive_fits | (!negative & timely),
        ..located
    }
}

// What is found so far, with what a record adds to it.
#[tactic(auto, unfolding(crate::specs::Walk::both, model::specs::Checks::verdict))]
fn with_record(v: Verdict, part: &Record, a: Asked) -> Verdict
    ensures { result ≡ both v (findings a (part.now ∷ [])) }
{
    if !is_enabled_rule(part, a.first, a.second) {
        return v;
    }
    if !location_fits(part, a.point, a.to) {
        return v;
    }
    with_located(v, part, a.time)
}

// What is found so far, with what the rules of a class add to it: records of their bucket are read as long as the chain may hold one. None where the
// chain is too long.
#[tactic(auto, using(crate::proofs::Chains::walk_end))]
fn with_class(site: &IndexedSite, found: Verdict, class: Class, a: Asked) -> Option<Verdict>
    ensures { IfSome result (Gains a (in_class class) (records site.now) found) }
{
    let records = site.records();
    let mut v = found;
    let number = class.number();
    let mut chain = site.head(class.bucket());
    for _ in 0..LONG_CHAIN {
        if !chain.may_hold(number) {
            return Some(v);
        }
        let at = chain.record();
        v = with_record(v, &records[at], a);
        chain = site.link(at);
    }
    if chain.may_hold(number) {
        return None;
    }
    Some(v)
}

// What all records find, one by one.
fn scanned(site: &IndexedSite, a: Asked) -> Verdict
    ensures { result ≡ findings a (records site.now) }
{
    site.records()
        .iter()
        .fold(Verdict::default(), |v, part| with_record(v, part, a))
}

// The classes of what is asked, first those of the one rights number: a rule of the rights that fits in location is of one of them.
fn rule_classes(a: Asked) -> [Class; RULE_CLASSES]
    ensures { result ≡ rule_classes a }
{
    // An array: a walk that computes each class where it is needed runs 6 to 14 % more instructions (measured).
    [
        index::rule_class(a.first.0, LOCATION_EVERYWHERE, 0),
        index::rule_class(a.first.0, LOCATION_POINT, a.point.0),
        index::rule_class(a.first.0, LOCATION_ZONE, a.to.0),
        index::rule_class(a.second.0, LOCATION_EVERYWHERE, 0),
        index::rule_class(a.second.0, LOCATION_POINT, a.point.0),
        index::rule_class(a.second.0, LOCATION_ZONE, a.to.0),
    ]
}

// Those of the classes that are walked: where the second rights number is the first again, or NONE, it has no rules of its own.
#[tactic(auto, unfolding(crate::specs::Walk::class_count))]
fn walked(classes: &[Class; RULE_CLASSES], a: Asked) -> &[Class]
    ensures { result.now ≡ take (class_count a) classes.now }
{
    if (a.second == a.first) | (a.second == RightsId::NONE) {
        return &classes[..NUMBER_CLASSES];
    }
    classes
}

// What the rules of the site find. Where a chain is too long, all records are read.
#[tactic(auto, using(crate::proofs::Rounds::round_start, crate::proofs::Rounds::round_turn, crate::proofs::Rounds::round_end))]
pub fn verdict_of(site: &IndexedSite, a: Asked) -> Verdict
    ensures { result ≡ findings a (records site.now) }
{
    let classes = rule_classes(a);
    let mut v = Verdict::default();
    for class in walked(&classes, a) {
        let Some(more) = with_class(site, v, *class, a) else {
            return scanned(site, a);
        };
        v = more;
    }
    v
}
