// The fields of site records.
#![tactic(auto, unfolding(model::specs::Site::zone_of, model::specs::Site::point_of, model::specs::Site::credential_of))]

ghost use Rattle.std.specs.Prelude.{◌≡◌};
ghost use Rattle.model.specs.Site as Site;
ghost use Rattle.model.specs.Site.{zone_of, point_of, credential_of};
ghost use Rattle.model.specs.State.{kept};

use super::fields::flag_of;
use super::{FromPart, Part};
use model::numbers::{
    ACCESS_CREDENTIAL, ACCESS_POINT, ACCESS_RULE, ACCESS_ZONE, AUTHENTICATION_FACTOR,
};
use model::{Credential, Point, RecordKind, RightsId, Zone, ZoneId, layout};

pub fn kind_of<P: Part>(part: P) -> u8
    ensures { result ≡ Site.kind (P.bytes part) }
{
    part.number_at(layout::KIND)
}

// The kind, where the byte names one. An Option, as in the definition: an error of TryFrom would say nothing more.
pub fn record_kind_of<P: Part>(part: P) -> Option<RecordKind>
    ensures { result ≡ Site.record_kind (P.bytes part) }
{
    match kind_of(part) {
        ACCESS_ZONE => Some(RecordKind::OfZone),
        ACCESS_POINT => Some(RecordKind::OfPoint),
        ACCESS_RULE => Some(RecordKind::OfRule),
        ACCESS_CREDENTIAL => Some(RecordKind::OfCredential),
        AUTHENTICATION_FACTOR => Some(RecordKind::OfFactor),
        _ => None,
    }
}

// Whether it has a state record: a zone, a point or a credential.
#[tactic(auto, unfolding(model::specs::State::kept))]
pub fn is_kept<P: Part>(part: P) -> bool
    ensures { result ≡ kept (P.bytes part) }
{
    matches!(
        record_kind_of(part),
        Some(RecordKind::OfZone | RecordKind::OfPoint | RecordKind::OfCredential)
    )
}

pub fn flags_of<P: Part>(part: P) -> u8
    ensures { result ≡ Site.flags (P.bytes part) }
{
    part.number_at(layout::FLAGS)
}

// The instance of a record: a factor's is its credential, a rule's its rights number.
pub fn instance_of<P: Part>(part: P) -> u32
    ensures { result ≡ Site.instance (P.bytes part) }
{
    part.number_at(layout::INSTANCE)
}

impl FromPart for Zone {
    ghost of_part = { zone_of };

    fn from_part<P: Part>(part: P) -> Zone {
        Zone {
            counting: flag_of(part, layout::ZONE_FLAG_COUNTING),
            passback: part.number_at(layout::ZONE_PASSBACK),
            upper_limit: part.number_at(layout::ZONE_UPPER_LIMIT),
            lower_limit: part.number_at(layout::ZONE_LOWER_LIMIT),
            passback_timeout: part.number_at(layout::ZONE_PASSBACK_TIMEOUT),
        }
    }
}

pub fn is_out_of_service<P: Part>(part: P) -> bool
    ensures { result ≡ (point_of (P.bytes part)).out_of_service }
{
    flag_of(part, layout::POINT_FLAG_OUT_OF_SERVICE)
}

pub fn mode_of<P: Part>(part: P) -> u8
    ensures { result ≡ (point_of (P.bytes part)).mode }
{
    part.number_at(layout::POINT_MODE)
}

pub fn factors_wanted_of<P: Part>(part: P) -> u8
    ensures { result ≡ (point_of (P.bytes part)).factors_wanted }
{
    part.number_at(layout::POINT_FACTORS_WANTED)
}

pub fn zone_to_of<P: Part>(part: P) -> ZoneId
    ensures { result ≡ (point_of (P.bytes part)).zone_to }
{
    ZoneId(part.reference_at(layout::POINT_ZONE_TO))
}

pub fn zone_from_of<P: Part>(part: P) -> ZoneId
    ensures { result ≡ (point_of (P.bytes part)).zone_from }
{
    ZoneId(part.reference_at(layout::POINT_ZONE_FROM))
}

pub fn threat_level_of<P: Part>(part: P) -> u8
    ensures { result ≡ (point_of (P.bytes part)).threat_level }
{
    part.number_at(layout::POINT_THREAT_LEVEL)
}

pub fn most_failures_of<P: Part>(part: P) -> u8
    ensures { result ≡ (point_of (P.bytes part)).most_failures }
{
    part.number_at(layout::POINT_MOST_FAILURES)
}

impl FromPart for Point {
    ghost of_part = { point_of };

    fn from_part<P: Part>(part: P) -> Point {
        Point {
            out_of_service: is_out_of_service(part),
            upper_enforced: flag_of(part, layout::POINT_FLAG_UPPER_ENFORCED),
            lower_enforced: flag_of(part, layout::POINT_FLAG_LOWER_ENFORCED),
            count_adjust: flag_of(part, layout::POINT_FLAG_COUNT_ADJUST),
            muster: flag_of(part, layout::POINT_FLAG_MUSTER),
            mode: mode_of(part),
            factors_wanted: factors_wanted_of(part),
            zone_to: zone_to_of(part),
            zone_from: zone_from_of(part),
            threat_level: threat_level_of(part),
            most_failures: most_failures_of(part),
            factor_timeout: part.number_at(layout::POINT_FACTOR_TIMEOUT),
            lockout_relinquish: part.number_at(layout::POINT_LOCKOUT_RELINQUISH),
            failure_window: part.number_at(layout::POINT_FAILURE_WINDOW),
        }
    }
}

pub fn threat_authority_of<P: Part>(part: P) -> u8
    ensures { result ≡ (credential_of (P.bytes part)).threat_authority }
{
    part.number_at(layout::CREDENTIAL_THREAT_AUTHORITY)
}

pub fn first_rights_of<P: Part>(part: P) -> RightsId
    ensures { result ≡ (credential_of (P.bytes part)).first_rights }
{
    RightsId(part.reference_at(layout::CREDENTIAL_FIRST_RIGHTS))
}

pub fn second_rights_of<P: Part>(part: P) -> RightsId
    ensures { result ≡ (credential_of (P.bytes part)).second_rights }
{
    RightsId(part.reference_at(layout::CREDENTIAL_SECOND_RIGHTS))
}

pub fn most_wrong_tries_of<P: Part>(part: P) -> u8
    ensures { result ≡ (credential_of (P.bytes part)).most_wrong_tries }
{
    part.number_at(layout::CREDENTIAL_MOST_WRONG_TRIES)
}

impl FromPart for Credential {
    ghost of_part = { credential_of };

    fn from_part<P: Part>(part: P) -> Credential {
        Credential {
            master: flag_of(part, layout::CREDENTIAL_FLAG_MASTER),
            passback_exempt: flag_of(part, layout::CREDENTIAL_FLAG_PASSBACK_EXEMPT),
            occupancy_exempt: flag_of(part, layout::CREDENTIAL_FLAG_OCCUPANCY_EXEMPT),
            trace: flag_of(part, layout::CREDENTIAL_FLAG_TRACE),
            extended_time: flag_of(part, layout::CREDENTIAL_FLAG_EXTENDED_TIME),
            threat_authority: threat_authority_of(part),
            activation: part.number_at(layout::CREDENTIAL_ACTIVATION),
            expiry: part.number_at(layout::CREDENTIAL_EXPIRY),
            absentee_days: part.number_at(layout::CREDENTIAL_ABSENTEE_DAYS),
            most_wrong_tries: most_wrong_tries_of(part),
            first_rights: first_rights_of(part),
            second_rights: second_rights_of(part),
        }
    }
}

// What a credential has when it is fresh.
pub fn uses_given<P: Part>(part: P) -> u16
    ensures { result ≡ Site.uses_given (P.bytes part) }
{
    part.number_at(layout::CREDENTIAL_USES)
}

pub fn days_given<P: Part>(part: P) -> u16
    ensures { result ≡ Site.days_given (P.bytes part) }
{
    part.number_at(layout::CREDENTIAL_DAYS)
}

pub fn disable_given<P: Part>(part: P) -> u8
    ensures { result ≡ Site.disable_given (P.bytes part) }
{
    part.number_at(layout::CREDENTIAL_DISABLE)
}

// ── a rule

pub fn is_enabled<P: Part>(part: P) -> bool
    ensures { result ≡ Site.enabled (P.bytes part) }
{
    flag_of(part, layout::RULE_FLAG_ENABLED)
}

pub fn is_negative<P: Part>(part: P) -> bool
    ensures { result ≡ Site.negative (P.bytes part) }
{
    flag_of(part, layout::RULE_FLAG_NEGATIVE)
}

pub fn is_always<P: Part>(part: P) -> bool
    ensures { result ≡ Site.always (P.bytes part) }
{
    flag_of(part, layout::RULE_FLAG_ALWAYS)
}

pub fn is_everywhere<P: Part>(part: P) -> bool
    ensures { result ≡ Site.everywhere (P.bytes part) }
{
    flag_of(part, layout::RULE_FLAG_EVERYWHERE)
}

pub fn location_kind_of<P: Part>(part: P) -> u8
    ensures { result ≡ Site.location_kind (P.bytes part) }
{
    part.number_at(layout::RULE_LOCATION_KIND)
}

pub fn location_of<P: Part>(part: P) -> u32
    ensures { result ≡ Site.location (P.bytes part) }
{
    part.number_at(layout::RULE_LOCATION)
}

pub fn weekdays_of<P: Part>(part: P) -> u8
    ensures { result ≡ Site.weekdays (P.bytes part) }
{
    part.number_at(layout::RULE_DAYS)
}

pub fn from_minute_of<P: Part>(part: P) -> u16
    ensures { result ≡ Site.from_minute (P.bytes part) }
{
    part.number_at(layout::RULE_FROM)
}

pub fn to_minute_of<P: Part>(part: P) -> u16
    ensures { result ≡ Site.to_minute (P.bytes part) }
{
    part.number_at(layout::RULE_TO)
}

// ── a factor; its value is compared in its place

pub fn role_of<P: Part>(part: P) -> u8
    ensures { result ≡ Site.role (P.bytes part) }
{
    part.number_at(layout::FACTOR_ROLE)
}

pub fn factor_disable_of<P: Part>(part: P) -> u8
    ensures { result ≡ Site.factor_disable (P.bytes part) }
{
    part.number_at(layout::FACTOR_DISABLE)
}

pub fn format_of<P: Part>(part: P) -> u8
    ensures { result ≡ Site.format (P.bytes part) }
{
    part.number_at(layout::FACTOR_FORMAT)
}
