// Whether a site names an object that is missing (refusal 4).
ghost use Rattle.std.specs.Prelude.{◌≡◌, true, Some};
ghost use Rattle.model.specs.Words.{all};
ghost use Rattle.model.specs.Site.{records};
ghost use Rattle.model.specs.Accept as Accept;
ghost use Rattle.model.specs.Accept.{in_range, rule_in_range, names_exist_as};
ghost use Rattle.model.specs.declared.RecordKind.TheVariants.{OfPoint, OfRule};

use super::indexed::{exists, none_or_exists};
use index::IndexedSite;
use model::numbers::LOCATION_ZONE;
use model::{CredentialId, PointId, RecordKind, ZoneId};
use records::Record;
use records::site::{
    instance_of, is_everywhere, location_kind_of, location_of, record_kind_of, zone_from_of,
    zone_to_of,
};

fn zones_exist(site: &IndexedSite, part: &Record) -> bool
    ensures { result ≡ names_exist_as (Some OfPoint) (records site.now) part.now }
{
    none_or_exists(site, zone_to_of(part)) & none_or_exists(site, zone_from_of(part))
}

// In range the location kinds are those of zone and point. Each function below asks it of its own record.
#[tactic(auto, using(crate::proofs::Records::point_location))]
fn location_exists(site: &IndexedSite, part: &Record) -> bool
    requires { rule_in_range part.now ≡ true }
    ensures { result ≡ names_exist_as (Some OfRule) (records site.now) part.now }
{
    if is_everywhere(part) {
        return true;
    }
    if location_kind_of(part) == LOCATION_ZONE {
        return exists(site, ZoneId(location_of(part)));
    }
    exists(site, PointId(location_of(part)))
}

// Whether what a record names is there: a point's zones, a rule's location, a factor's credential.
#[tactic(auto, unfolding(model::specs::Accept::names_exist), using(crate::proofs::Records::rule_in_range_law))]
fn names_exist(site: &IndexedSite, part: &Record) -> bool
    requires { in_range part.now ≡ true }
    ensures { result ≡ Accept.names_exist (records site.now) part.now }
{
    match record_kind_of(part) {
        Some(RecordKind::OfPoint) => zones_exist(site, part),
        Some(RecordKind::OfRule) => location_exists(site, part),
        Some(RecordKind::OfFactor) => exists(site, CredentialId(instance_of(part))),
        Some(RecordKind::OfZone | RecordKind::OfCredential) | None => true,
    }
}

pub(crate) fn all_names_exist(site: &IndexedSite) -> bool
    requires { all in_range (records site.now) ≡ true }
    ensures { result ≡ all (Accept.names_exist (records site.now)) (records site.now) }
{
    site.records().iter().all(|part| names_exist(site, part))
}
