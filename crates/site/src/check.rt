// The site check: refusals 1 to 4, each over the whole site before the next. It leaves the index of a site that is worked through.
ghost use Rattle.std.specs.Prelude.{◌≡◌, ◌≤◌, length, true, false, IfOk, MatchResult};
ghost use Rattle.model.specs.Words.{all};
ghost use Rattle.model.specs.Accept.{in_range};
ghost use Rattle.model.specs.Calls.{check_site};
ghost use Rattle.index.specs.Index.{most_records, Indexed, IndexedFrom};

use super::{names, range, twins};
use index::{IndexedSite, Words};
use model::Refusal;
use model::numbers::{LARGEST_SITE, RECORD_SIZE};
use records::Record;

// Refusal 2. Ranges and the index take one walk, from the last record to the first, by number: `insert` puts the i-th
// record before the later ones.
fn index_in_range(records: &[Record], words: &mut Words) -> Result<(), Refusal>
    requires { length records.now ≤ most_records }
    ensures { MatchResult result (λ u. (all in_range records.now ≡ true) × IndexedFrom 0 records.now words.new) (λ r. (all in_range records.now ≡ false) × (r ≡ Refusal.SiteField)) }
{
    index::empty(records, words);
    for i in (0..records.len()).rev() {
        if !range::in_range(&records[i]) {
            return Err(Refusal::SiteField);
        }
        index::insert(records, words, i);
    }
    Ok(())
}

#[tactic(auto, unfolding(model::specs::Calls::check_site), using(index::proofs::Building::length_records))]
pub fn check_site(site: &[u8], words: &mut Words) -> Result<(), Refusal>
    ensures value { result ≡ check_site site.now }
    ensures index { IfOk result (λ u. Indexed site.now words.new) }
{
    if (site.len() % RECORD_SIZE != 0) | (LARGEST_SITE < site.len()) {
        return Err(Refusal::SiteLength);
    }
    index_in_range(index::records(site), words)?;
    let indexed = IndexedSite::new(site, words);
    if twins::has_twins(&indexed) {
        return Err(Refusal::SiteTwice);
    }
    if !names::all_names_exist(&indexed) {
        return Err(Refusal::SiteMissing);
    }
    Ok(())
}
