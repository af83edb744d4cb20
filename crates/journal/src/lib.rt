// A journal run over lent bytes. The way of an entry goes forward: its form and its object, the records that it looks at, gathered by value, its outcome,
// and the records that it writes. Site and state stay two parameters: with a struct of both, each clause would name its two parts; in a
// contract, what such a struct has lent is a part of its entry, and Rattle copies none that has both a lifetime and a Model.
#![tactic(auto)]

pub mod object; // object.rt: where the object of an entry stands
pub mod gather; // gather.rt: the records that a factor read looks at
pub mod decide; // decide.rt: the outcome of a factor read
pub mod apply; // apply.rt: the state records that an outcome writes
pub mod step; // step.rt: one entry
pub mod run; // run.rt: all entries of a journal

use index::Place;
use model::{Outcome, Situation};

// Where the records stand that an entry may write, beside the situation, which the definitions have without places.
#[derive(Clone, Copy)]
pub struct Places {
    pub point: Option<Place>,
    pub credential: Option<Place>,
    pub zone_to: Option<Place>,
    pub zone_from: Option<Place>,
}

// What a factor read looks at, and where its records stand.
#[derive(Clone, Copy)]
pub struct Gathered {
    pub situation: Situation,
    pub places: Places,
}

// The outcome of an entry, and where the records stand that it writes.
#[derive(Clone, Copy)]
pub struct Decided {
    pub outcome: Outcome,
    pub places: Places,
}
