// Whether a field of a site is out of range (refusal 2).
ghost use Rattle.std.specs.Prelude.{◌≡◌, ◌+◌, ◌≤◌, length};
ghost use Rattle.model.specs.Site.{record_kind};
ghost use Rattle.model.specs.Accept.{clear, zone_in_range, point_in_range, location_in_range, rule_in_range, credential_in_range, factor_in_range, in_range_as, in_range};

use model::numbers::{
    FACTOR_DESTROYED, FORMAT_ERROR, LARGEST_DISABLE, LARGEST_THREAT, LOCATION_EVERYWHERE,
    LOCATION_POINT, LOCATION_ZONE, MINUTES_OF_DAY, MODE_DENY_ALL, NONE, PASSBACK_SOFT,
    ROLE_CONFIRMING, ROLE_IDENTIFYING, TWO_FACTORS,
};
use model::{RecordKind, Zone, ZoneId, layout};
use records::{FromPart, Record, site};

// Whether n bytes are zero. Their bits are taken together, by whole words, which is quick: the check of every record asks it.
#[tactic(auto, using(crate::proofs::Clear::clear_all))]
pub fn is_clear(part: &[u8], at: usize, n: usize) -> bool
    requires { at + n ≤ length part.now }
    ensures { result ≡ clear at n part.now }
{
    part[at..at + n].iter().fold(0, |all, b| all | b) == 0
}

#[tactic(auto, unfolding(model::specs::Accept::zone_in_range))]
fn zone_in_range(part: &Record) -> bool
    ensures { result ≡ zone_in_range part.now }
{
    let z = Zone::from_part(part);
    (site::flags_of(part) < layout::ZONE_FLAGS_END)
        & (z.passback <= PASSBACK_SOFT)
        & is_clear(part, layout::ZONE_SPARE_BYTE, 1)
        & is_clear(part, layout::ZONE_SPARE, layout::ZONE_SPARE_SIZE)
}

// The fields of a point, and of a credential, are read one by one: the readers of the whole are too large to be inlined in two places.
#[tactic(auto, unfolding(model::specs::Accept::point_in_range))]
fn point_in_range(part: &Record) -> bool
    ensures { result ≡ point_in_range part.now }
{
    let factors_wanted = site::factors_wanted_of(part);
    let zone_to = site::zone_to_of(part);
    let zone_from = site::zone_from_of(part);
    (site::flags_of(part) < layout::POINT_FLAGS_END)
        & (site::mode_of(part) <= MODE_DENY_ALL)
        & ((1 <= factors_wanted) & (factors_wanted <= TWO_FACTORS))
        & (zone_to.0 <= NONE)
        & (zone_from.0 <= NONE)
        & ((zone_to == ZoneId::NONE) | (zone_to != zone_from))
        & (site::threat_level_of(part) <= LARGEST_THREAT)
        & is_clear(part, layout::POINT_SPARE, layout::POINT_SPARE_SIZE)
}

// A rule's location: none where the rule is for everywhere, else a zone or a point.
fn location_in_range(part: &Record) -> bool
    ensures { result ≡ location_in_range part.now }
{
    let kind = site::location_kind_of(part);
    let location = site::location_of(part);
    if site::is_everywhere(part) {
        return (kind == LOCATION_EVERYWHERE) & (location == 0);
    }
    ((LOCATION_ZONE <= kind) & (kind <= LOCATION_POINT)) & (location < NONE)
}

#[tactic(auto, unfolding(model::specs::Accept::rule_in_range))]
fn rule_in_range(part: &Record) -> bool
    ensures { result ≡ rule_in_range part.now }
{
    (site::flags_of(part) < layout::RULE_FLAGS_END)
        & (site::weekdays_of(part) < layout::RULE_DAYS_END)
        & location_in_range(part)
        & (u32::from(site::from_minute_of(part)) <= MINUTES_OF_DAY)
        & (u32::from(site::to_minute_of(part)) <= MINUTES_OF_DAY)
        & is_clear(part, layout::RULE_SPARE, layout::RULE_SPARE_SIZE)
}

#[tactic(auto, unfolding(model::specs::Accept::credential_in_range))]
fn credential_in_range(part: &Record) -> bool
    ensures { result ≡ credential_in_range part.now }
{
    (site::flags_of(part) < layout::CREDENTIAL_FLAGS_END)
        & (site::disable_given(part) <= LARGEST_DISABLE)
        & (site::threat_authority_of(part) <= LARGEST_THREAT)
        & is_clear(part, layout::CREDENTIAL_SPARE_BYTE, 1)
        & (site::first_rights_of(part).0 <= NONE)
        & (site::second_rights_of(part).0 <= NONE)
}

#[tactic(auto, unfolding(model::specs::Accept::factor_in_range))]
fn factor_in_range(part: &Record) -> bool
    ensures { result ≡ factor_in_range part.now }
{
    let role = site::role_of(part);
    (site::flags_of(part) == 0)
        & ((ROLE_IDENTIFYING <= role) & (role <= ROLE_CONFIRMING))
        & (site::factor_disable_of(part) <= FACTOR_DESTROYED)
        & (FORMAT_ERROR < site::format_of(part))
        & is_clear(
            part,
            layout::FACTOR_FORMAT_SPARE,
            layout::FACTOR_FORMAT_SPARE_SIZE,
        )
        & is_clear(part, layout::FACTOR_SPARE, layout::FACTOR_SPARE_SIZE)
}

fn fields_in_range(part: &Record) -> bool
    ensures { result ≡ in_range_as (record_kind part.now) part.now }
{
    match site::record_kind_of(part) {
        Some(RecordKind::OfZone) => zone_in_range(part),
        Some(RecordKind::OfPoint) => point_in_range(part),
        Some(RecordKind::OfRule) => rule_in_range(part),
        Some(RecordKind::OfCredential) => credential_in_range(part),
        Some(RecordKind::OfFactor) => factor_in_range(part),
        None => false,
    }
}

#[tactic(auto, unfolding(model::specs::Accept::in_range))]
pub(crate) fn in_range(part: &Record) -> bool
    ensures { result ≡ in_range part.now }
{
    site::instance_of(part) < NONE && fields_in_range(part)
}
