// The calls, on slices. Every call checks the site anew, and nothing is written before all checks have passed.
#![tactic(auto, unfolding(model::specs::Calls::is_worked, model::specs::Calls::fresh_returned, model::specs::Calls::fresh_state, model::specs::Calls::check_state, model::specs::Calls::run_returned, model::specs::Calls::run_journal, model::specs::Longer::shorten_returned, model::specs::Longer::shorten_state, model::specs::Longer::lengthen_returned, model::specs::Longer::lengthen_state), using(crate::proofs::Laws::fresh_whole))]

ghost use Rattle.std.specs.Prelude.{◌≡◌, Bool, true, MatchResult, Ok, Err};
ghost use Rattle.model.specs.Calls.{number, check_site, fresh_returned, state_result, fresh_state, check_state, run_returned, run_result, run_journal};
ghost use Rattle.model.specs.Longer.{across_returned, shorten_state, lengthen_state};

use index::{INDEX_SIZE, IndexedSite, UNBUILT, Words};
use model::Refusal;
use model::numbers::{ANSWER_SIZE, ENTRY_SIZE, LARGEST_JOURNAL};

// The number of an outcome in document 01, section "Turned back".
pub fn number_of(outcome: Result<(), Refusal>) -> u32
    ensures { result ≡ number outcome }
{
    match outcome {
        Ok(()) => 0,
        Err(refusal) => refusal as u32,
    }
}

// The site check: refusals 1 to 4.
pub fn check_site(site: &[u8]) -> Result<(), Refusal>
    ensures { result ≡ check_site site.now }
{
    let mut words = [UNBUILT; INDEX_SIZE];
    site::check::check_site(site, &mut words)
}

// Refusals 1 to 5; else the site with its index. Site and words go together until that is made; state, journal and answers are lent as C lends them.
fn fresh_checked<'s, 'w>(
    site: &'s [u8],
    words: &'w mut Words,
    state: &[u8],
) -> Result<IndexedSite<'s, 'w>, Refusal>
    ensures { MatchResult result (λ s. (fresh_returned site.now state.now ≡ Ok tt) × (s ≡ site.now)) (λ r. fresh_returned site.now state.now ≡ Err r) }
{
    site::check::check_site(site, words)?;
    let indexed = IndexedSite::new(site, words);
    if state.len() != indexed.state_length() {
        return Err(Refusal::StateLength);
    }
    Ok(indexed)
}

// The fresh state: refusals 1 to 5; turned back, the state stays as it was.
pub fn make_fresh(site: &[u8], state: &mut [u8]) -> Result<(), Refusal>
    ensures { state_result result state.new ≡ fresh_state site.now state.old }
{
    let mut words = [UNBUILT; INDEX_SIZE];
    fresh_checked(site, &mut words, state)?;
    state::fresh::write_fresh_state(site, state);
    Ok(())
}

// Refusals 1 to 6; else the site with its index.
fn state_checked<'s, 'w>(
    site: &'s [u8],
    words: &'w mut Words,
    state: &[u8],
) -> Result<IndexedSite<'s, 'w>, Refusal>
    ensures { MatchResult result (λ s. (check_state site.now state.now ≡ Ok tt) × (s ≡ site.now)) (λ r. check_state site.now state.now ≡ Err r) }
{
    let indexed = fresh_checked(site, words, state)?;
    if !state::well::is_well_formed(&indexed, state) {
        return Err(Refusal::StateForm);
    }
    Ok(indexed)
}

// The state check: refusals 1 to 6.
pub fn check_state(site: &[u8], state: &[u8]) -> Result<(), Refusal>
    ensures { result ≡ check_state site.now state.now }
{
    let mut words = [UNBUILT; INDEX_SIZE];
    state_checked(site, &mut words, state)?;
    Ok(())
}

// Refusals 1 to 6, 10 and 11; else the site with its index.
fn run_checked<'s, 'w>(
    site: &'s [u8],
    words: &'w mut Words,
    state: &[u8],
    journal: &[u8],
    answers: &[u8],
) -> Result<IndexedSite<'s, 'w>, Refusal>
    ensures { MatchResult result (λ s. (run_returned site.now state.now journal.now answers.now ≡ Ok tt) × (s ≡ site.now)) (λ r. run_returned site.now state.now journal.now answers.now ≡ Err r) }
{
    let indexed = state_checked(site, words, state)?;
    if (journal.len() % ENTRY_SIZE != 0) | (LARGEST_JOURNAL < journal.len()) {
        return Err(Refusal::JournalLength);
    }
    if answers.len() != journal.len() / ENTRY_SIZE * ANSWER_SIZE {
        return Err(Refusal::AnswersLength);
    }
    Ok(indexed)
}

// The journal run: refusals 1 to 6, 10, 11; turned back, state and answers stay as they were. A bad entry is refused in its own answer.
pub fn work_through(
    site: &[u8],
    state: &mut [u8],
    journal: &[u8],
    answers: &mut [u8],
) -> Result<(), Refusal>
    ensures { run_result result state.new answers.new ≡ run_journal site.now state.old journal.now answers.old }
{
    let mut words = [UNBUILT; INDEX_SIZE];
    let indexed = run_checked(site, &mut words, state, journal, answers)?;
    journal::run::run(&indexed, state, journal, answers);
    Ok(())
}

// Refusals 1 to 5 of a shorter state and a longer one, else the site with its index: either is turned back by its own length.
fn across_checked<'s, 'w>(
    site: &'s [u8],
    words: &'w mut Words,
    state: &[u8],
    long: &[u8],
) -> Result<IndexedSite<'s, 'w>, Refusal>
    ensures { MatchResult result (λ s. (across_returned site.now state.now long.now true ≡ Ok tt) × (s ≡ site.now)) (λ r. (well : Bool) → across_returned site.now state.now long.now well ≡ Err r) }
{
    let indexed = fresh_checked(site, words, state)?;
    if long.len() != site.len() {
        return Err(Refusal::StateLength);
    }
    Ok(indexed)
}

// From the longer state of before to the shorter one: refusals 1 to 6 of the longer state, 5 for the length of either; turned back, the shorter one stays
// as it was.
pub fn shorten(site: &[u8], long: &[u8], state: &mut [u8]) -> Result<(), Refusal>
    ensures { state_result result state.new ≡ shorten_state site.now long.now state.old }
{
    let mut words = [UNBUILT; INDEX_SIZE];
    let indexed = across_checked(site, &mut words, state, long)?;
    if !state::well::is_long_well_formed(&indexed, long) {
        return Err(Refusal::StateForm);
    }
    state::across::write_shorter(site, long, state);
    Ok(())
}

// And back: refusals 1 to 6 of the shorter state, 5 for the length of either; turned back, the longer one stays as it was.
pub fn lengthen(site: &[u8], state: &[u8], long: &mut [u8]) -> Result<(), Refusal>
    ensures { state_result result long.new ≡ lengthen_state site.now state.now long.old }
{
    let mut words = [UNBUILT; INDEX_SIZE];
    let indexed = across_checked(site, &mut words, state, long)?;
    if !state::well::is_well_formed(&indexed, state) {
        return Err(Refusal::StateForm);
    }
    state::across::write_longer(&indexed, state, long);
    Ok(())
}
