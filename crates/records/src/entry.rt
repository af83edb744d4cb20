// Entries, read, and answers, as bytes.
ghost use Rattle.std.specs.Prelude.{◌≡◌, ◌+◌, ◌≤◌, length, take, drop};
ghost use Rattle.model.specs.Entry.{entry_of, answer_bytes};

use model::numbers::{ANSWER_SIZE, ENTRY_SIZE};
use model::{Answer, Entry, layout};
use octets::Number;

// The eight bytes from an offset on, by value.
pub fn eight(part: &[u8], at: usize) -> [u8; 8]
    requires { at + 8 ≤ length part.now }
    ensures { result ≡ take 8 (drop at part.now) }
{
    *part[at..].first_chunk().unwrap()
}

// The entry in its bytes.
#[tactic(auto, unfolding(model::specs::Entry::entry_of))]
pub fn entry_of(part: &[u8; ENTRY_SIZE]) -> Entry
    ensures { result ≡ entry_of part.now }
{
    Entry {
        operation: u8::get(part, layout::ENTRY_OPERATION),
        argument: u8::get(part, layout::ENTRY_ARGUMENT),
        spare: u16::get(part, layout::ENTRY_SPARE),
        time: u32::get(part, layout::ENTRY_TIME),
        instance: u32::get(part, layout::ENTRY_INSTANCE),
        amount: u32::get(part, layout::ENTRY_AMOUNT),
        value: eight(part, layout::ENTRY_VALUE),
    }
}

// The answer in its bytes, all of them.
#[tactic(auto, unfolding(octets::specs::Octets::put, octets::specs::Octets::digits, model::specs::Entry::answer_bytes))]
pub fn answer_bytes(a: Answer) -> [u8; ANSWER_SIZE]
    ensures { result ≡ answer_bytes a }
{
    let mut part = [0; ANSWER_SIZE];
    a.event.put(&mut part, layout::ANSWER_EVENT);
    a.marks.put(&mut part, layout::ANSWER_MARKS);
    a.refusal.put(&mut part, layout::ANSWER_REFUSAL);
    a.tag.put(&mut part, layout::ANSWER_TAG);
    a.credential.0.put(&mut part, layout::ANSWER_CREDENTIAL);
    a.count.put(&mut part, layout::ANSWER_COUNT);
    part
}
