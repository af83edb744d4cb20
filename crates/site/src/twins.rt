// Whether a site has the same twice (refusal 3).
ghost use Rattle.std.specs.Prelude.{◌≡◌, [], ◌+◌, ◌<◌, length, get_or, drop};
ghost use Rattle.model.specs.Words.{any};
ghost use Rattle.model.specs.Site as Site;
ghost use Rattle.model.specs.Site.{record_kind, records};
ghost use Rattle.model.specs.Accept as Accept;
ghost use Rattle.model.specs.Accept.{twins_as, twice};
ghost use Rattle.index.specs.Index.{bucket_of};
ghost use Rattle.index.proofs.Buckets.{twins_bucket};
ghost use Rattle.site.specs.Sought.{twins_kind};

use super::lookup::same_eight;
use index::{IndexedSite, Sought};
use model::RecordKind;
use model::layout::FACTOR_VALUE;
use model::numbers::{ACCESS_RULE, ROLE_IDENTIFYING};
use records::Record;
use records::site::{format_of, instance_of, kind_of, record_kind_of, role_of};

// Two factors: identifying ones alike in format and value, confirming ones also in credential. Most that come here differ in their values, so that the
// credential is seldom read. Two records stay two parameters, here and below, as in the definitions.
#[tactic(auto, unfolding(model::specs::Accept::twin_factors))]
fn twin_factors(s: &Record, t: &Record) -> bool
    ensures { result ≡ Accept.twin_factors s.now t.now }
{
    let role = role_of(s);
    role == role_of(t)
        && format_of(s) == format_of(t)
        && same_eight(s, FACTOR_VALUE, t, FACTOR_VALUE)
        && (role == ROLE_IDENTIFYING || instance_of(s) == instance_of(t))
}

// Two records of one kind: zones, points or credentials of one instance, or such factors. Rules are never twins.
fn are_alike(s: &Record, t: &Record) -> bool
    ensures { result ≡ twins_as (record_kind s.now) s.now t.now }
{
    match record_kind_of(s) {
        Some(RecordKind::OfRule) => false,
        Some(RecordKind::OfFactor) => twin_factors(s, t),
        Some(RecordKind::OfZone | RecordKind::OfPoint | RecordKind::OfCredential) | None => {
            instance_of(s) == instance_of(t)
        }
    }
}

// The kinds are compared first: most pairs differ there. A walk along a chain asks it at each link, where a call takes as long as the comparison.
#[inline(always)]
#[tactic(auto, unfolding(model::specs::Accept::twins))]
fn twins(s: &Record, t: &Record) -> bool
    ensures { result ≡ Accept.twins s.now t.now }
{
    kind_of(s) == kind_of(t) && are_alike(s, t)
}

// A record as what its twins are sought by.
#[derive(Clone, Copy)]
struct TwinOf<'a>(&'a Record);

impl<'a> Sought for TwinOf<'a> {
    ghost fits = { λ s. Accept.twins s.0.now };

    ghost bucket = { λ s. bucket_of s.0.now };

    ghost kind = { λ s. Site.kind s.0.now };

    ghost of_bucket = { λ s part e. twins_bucket s.0.now part e };

    ghost of_kind = { λ s part e. twins_kind s.0.now part e };

    #[inline(always)]
    fn fits(self, part: &Record) -> bool {
        twins(self.0, part)
    }

    fn kind(self) -> u8 {
        kind_of(self.0)
    }
}

// Whether a record after the i-th is the same as it: twins share a bucket. Rules, of which a bucket may hold many, are never twins.
#[tactic(auto, using(crate::proofs::Places::place_any, crate::proofs::Records::rule_alone))]
fn has_twin_after(site: &IndexedSite, i: usize) -> bool
    requires { i < length (records site.now) }
    ensures { result ≡ any (Accept.twins (get_or (records site.now) i [])) (drop (i + 1) (records site.now)) }
{
    let part = site.record_at(i);
    kind_of(part) != ACCESS_RULE && site.first_after(TwinOf(part), i).is_some()
}

pub(crate) fn has_twins(site: &IndexedSite) -> bool
    ensures { result ≡ twice (records site.now) }
{
    (0..site.records().len()).any(|i| has_twin_after(site, i))
}
