// One journal printed: its answers as text, or the number of an input that is turned back.
#![tactic(auto)]

pub mod numbers; // numbers.rt: the characters, and how long a line is
mod lines; // lines.rt: answers in hexadecimal digits, numbers in decimal

ghost use Rattle.std.specs.Prelude.{◌≡◌};
ghost use Rattle.model.specs.Calls.{run_result};
ghost use Rattle.print.specs.Print.{has_room, run_into, print_result, print_into};

use model::Refusal;
use model::numbers::ENTRY_SIZE;
use numbers::{LINE_SIZE, NUMBER_SIZE};

// Whether there is room for every text that the journal may get.
#[tactic(auto, unfolding(crate::specs::Print::has_room))]
fn has_room(journal: &[u8], text: &[u8]) -> bool
    ensures { result ≡ has_room journal.now text.now }
{
    (journal.len() / ENTRY_SIZE * LINE_SIZE <= text.len()) & (NUMBER_SIZE <= text.len())
}

// Runs a journal from fresh, in the lent state and answers. What the making of a fresh state turns back, the run would turn back under the same number.
#[tactic(auto, unfolding(crate::specs::Print::run_into, model::specs::Calls::run_journal, model::specs::Calls::run_returned, model::specs::Calls::check_state, model::specs::Calls::fresh_state, model::specs::Calls::is_worked))]
fn run_into(
    site: &[u8],
    journal: &[u8],
    state: &mut [u8],
    answers: &mut [u8],
) -> Result<(), Refusal>
    ensures { run_result result state.new answers.new ≡ run_into site.now journal.now state.old answers.old }
{
    view::fresh_state(site, state)?;
    view::run_journal(site, state, journal, answers)
}

// The printed journal, at the head of the text. Returns how long it is. Without room for it no buffer is changed.
// The five slices are no struct: it would be made once and taken apart twice, and its lent parts would be parts of its entry in the contract.
// What is written is handed back by its length: the contract speaks of the whole text's later contents, and no clause can where a part of it is lent out.
pub fn print_journal(
    site: &[u8],
    journal: &[u8],
    state: &mut [u8],
    answers: &mut [u8],
    text: &mut [u8],
) -> Option<usize>
    ensures { print_result result state.new answers.new text.new ≡ print_into site.now journal.now state.old answers.old text.old }
{
    if !has_room(journal, text) {
        return None;
    }
    let outcome = run_into(site, journal, state, answers);
    if outcome.is_ok() {
        return Some(lines::write_answers(answers, text));
    }
    Some(lines::write_decimal_line(text, calls::number_of(outcome)))
}
