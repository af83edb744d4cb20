// The view of a site, and the calls that work on it. It remembers the site's bytes and how many records they hold; the calls check them anew.
// The functions of a view only take it apart; the work is done by functions over slices.
#![tactic(auto)]

ghost use Rattle.std.specs.Prelude.{◌≡◌, length};
ghost use Rattle.model.specs.Site.{records, lookup, find_in};
ghost use Rattle.model.specs.Calls.{check_site, state_result, fresh_state, check_state, run_result, run_journal};
ghost use Rattle.model.specs.State.{state_length};
ghost use Rattle.model.specs.Longer.{shorten_state, lengthen_state};
ghost use Rattle.site.specs.Factor.{fits};
ghost use Rattle.view.specs.Object.{kind_of, instance_of};

use model::{CredentialId, PointId, Refusal, RightsId, ZoneId};
use site::{Presented, lookup};

// What a record may be looked up by.
#[derive(Clone, Copy, PartialEq, Eq)]
pub enum Object {
    Zone(ZoneId),
    Point(PointId),
    Credential(CredentialId),
    Rights(RightsId),
}

// The first record that an object names, else the empty part, as document 01 asks. The caller chooses the kind when it calls.
#[tactic(auto, unfolding(crate::specs::Object::kind_of, crate::specs::Object::instance_of))]
pub fn find_object(site: &[u8], object: Object) -> &[u8]
    ensures { result.now ≡ lookup (kind_of object) (instance_of object) site.now }
{
    match object {
        Object::Zone(zone) => lookup::find(site, zone),
        Object::Point(point) => lookup::find(site, point),
        Object::Credential(credential) => lookup::find(site, credential),
        Object::Rights(rights) => lookup::find(site, rights),
    }
}

// A site's bytes, and how many records they hold: both, as document 01 asks.
#[derive(Clone, Copy)]
pub struct SiteView<'a> {
    pub bytes: &'a [u8],
    pub records: usize,
}

impl<'a> SiteView<'a> {
    pub fn of(site: &'a [u8]) -> SiteView<'a>
        ensures { (result.bytes ≡ site.entry) × (result.records ≡ length (records site.now)) }
    {
        SiteView {
            bytes: site,
            records: index::records(site).len(),
        }
    }

    pub fn records(&self) -> usize
        ensures { result ≡ self.now.records }
    {
        self.records
    }

    pub fn find(&self, object: Object) -> &'a [u8]
        ensures { result.now ≡ lookup (kind_of object) (instance_of object) self.now.bytes.now }
    {
        find_object(self.bytes, object)
    }

    // The first factor that fits what is presented, else the empty part.
    pub fn find_factor(&self, factor: Presented) -> &'a [u8]
        ensures { result.now ≡ find_in (fits factor) (records self.now.bytes.now) }
    {
        lookup::find_factor(self.bytes, factor)
    }

    pub fn check_site(&self) -> Result<(), Refusal>
        ensures { result ≡ check_site self.now.bytes.now }
    {
        calls::check_site(self.bytes)
    }

    // How long its state is.
    pub fn state_length(&self) -> usize
        ensures { result ≡ state_length self.now.bytes.now }
    {
        lookup::state_length(self.bytes)
    }

    pub fn make_fresh(&self, state: &mut [u8]) -> Result<(), Refusal>
        ensures { state_result result state.new ≡ fresh_state self.now.bytes.now state.old }
    {
        calls::make_fresh(self.bytes, state)
    }

    pub fn check_state(&self, state: &[u8]) -> Result<(), Refusal>
        ensures { result ≡ check_state self.now.bytes.now state.now }
    {
        calls::check_state(self.bytes, state)
    }

    pub fn work_through(
        &self,
        state: &mut [u8],
        journal: &[u8],
        answers: &mut [u8],
    ) -> Result<(), Refusal>
        ensures { run_result result state.new answers.new ≡ run_journal self.now.bytes.now state.old journal.now answers.old }
    {
        calls::work_through(self.bytes, state, journal, answers)
    }

    // From the longer state of before to the shorter one.
    pub fn shorten(&self, long: &[u8], state: &mut [u8]) -> Result<(), Refusal>
        ensures { state_result result state.new ≡ shorten_state self.now.bytes.now long.now state.old }
    {
        calls::shorten(self.bytes, long, state)
    }

    // And back.
    pub fn lengthen(&self, state: &[u8], long: &mut [u8]) -> Result<(), Refusal>
        ensures { state_result result long.new ≡ lengthen_state self.now.bytes.now state.now long.old }
    {
        calls::lengthen(self.bytes, state, long)
    }
}

// The upper calls, as document 01 has them beside those of a view: each makes a view of the site and works on it.
pub fn check_site(site: &[u8]) -> Result<(), Refusal>
    ensures { result ≡ check_site site.now }
{
    SiteView::of(site).check_site()
}

pub fn fresh_state(site: &[u8], state: &mut [u8]) -> Result<(), Refusal>
    ensures { state_result result state.new ≡ fresh_state site.now state.old }
{
    SiteView::of(site).make_fresh(state)
}

pub fn check_state(site: &[u8], state: &[u8]) -> Result<(), Refusal>
    ensures { result ≡ check_state site.now state.now }
{
    SiteView::of(site).check_state(state)
}

pub fn run_journal(
    site: &[u8],
    state: &mut [u8],
    journal: &[u8],
    answers: &mut [u8],
) -> Result<(), Refusal>
    ensures { run_result result state.new answers.new ≡ run_journal site.now state.old journal.now answers.old }
{
    SiteView::of(site).work_through(state, journal, answers)
}

pub fn shorten_state(site: &[u8], long: &[u8], state: &mut [u8]) -> Result<(), Refusal>
    ensures { state_result result state.new ≡ shorten_state site.now long.now state.old }
{
    SiteView::of(site).shorten(long, state)
}

pub fn lengthen_state(site: &[u8], state: &[u8], long: &mut [u8]) -> Result<(), Refusal>
    ensures { state_result result long.new ≡ lengthen_state site.now state.now long.old }
{
    SiteView::of(site).lengthen(state, long)
}

// How long the state of a site is, on any bytes.
pub fn state_length(site: &[u8]) -> usize
    ensures { result ≡ state_length site.now }
{
    SiteView::of(site).state_length()
}
