// The entries of a journal: the reader that moves on from one to the next, and the form that refusal 7 asks.
#![tactic(auto)]

pub mod reader; // reader.rt: the entry at a place of the journal, and the next; the entries in turn
pub mod form; // form.rt: the operation that an entry asks for, and refusal 7

// Where the next entry of a journal stands; it goes by value, as document 01 asks.
#[derive(Clone, Copy)]
pub struct Cursor {
    pub at: usize,
}
