// The reader of a journal moves on by one 24-byte entry each time.
ghost use Rattle.std.specs.Prelude.{◌≡◌, ◌+◌, ◌^◌, ◌≤◌, ◌<◌, length, map, take, drop};
ghost use Rattle.model.specs.Entry.{entry_of, entries};

use super::Cursor;
use model::Entry;
use model::numbers::ENTRY_SIZE;
use records::entry::entry_of;
use std::marker::Model;

impl Cursor {
    pub fn start() -> Cursor
        ensures { result.at ≡ 0 }
    {
        Cursor { at: 0 }
    }

    // The entry at the cursor.
    #[tactic(auto, using(crate::proofs::Rest::entry_from))]
    pub fn read(self, journal: &[u8]) -> Entry
        requires { self.at + 24 ≤ length journal.now }
        ensures { result ≡ entry_of (take 24 (drop self.at journal.now)) }
    {
        entry_of(journal[self.at..].first_chunk().unwrap())
    }

    pub fn next(self) -> Cursor
        requires { self.at + 24 < 2 ^ 64 }
        ensures { result.at ≡ self.at + 24 }
    {
        Cursor {
            at: self.at + ENTRY_SIZE,
        }
    }
}

// The entries of a journal from a cursor on, those that are still to be read.
#[derive(Clone, Drop)]
pub struct Entries<'a> {
    journal: &'a [u8],
    cursor: Cursor,
}

impl<'a> Model for Entries<'a> {
    ghost use Rattle.std.specs.Prelude.{◌≤◌, List, length, map, drop};
    ghost use Rattle.model.specs.Entry.{entry_of, entries};
    ghost use Rattle.model.specs.declared.Entry.{Entry};

    ghost Value = { List Entry };

    ghost view = { λ s. map entry_of (entries (drop s.cursor.at s.journal.now)) };

    ghost invariant = { λ s. s.cursor.at ≤ length s.journal.now };
}

impl<'a> Entries<'a> {
    pub fn of(journal: &'a [u8]) -> Entries<'a>
        ensures { result ≡ map entry_of (entries journal.now) }
    {
        Entries {
            journal,
            cursor: Cursor::start(),
        }
    }
}

impl<'a> Iterator for Entries<'a> {
    type Item = Entry;

    ghost use Rattle.std.specs.Iterator.{YieldsFirst, item_count};

    ghost next_gives = { YieldsFirst (λ s. s) };

    ghost remaining = { item_count (λ s. s) };

    #[tactic(auto, using(crate::proofs::Rest::none_from, crate::proofs::Rest::first_from))]
    fn next(&mut self) -> Option<Entry> {
        if self.journal.len() - self.cursor.at < ENTRY_SIZE {
            return None;
        }
        let entry = self.cursor.read(self.journal);
        self.cursor = self.cursor.next();
        Some(entry)
    }
}
