// The buckets into which records fall, and the classes of rules, each of a bucket and a tag. A contract sees the number of either; its type keeps that in
// range.
ghost use Rattle.std.specs.Prelude.{◌≡◌, ◌/◌, ◌%◌, ◌<◌};
ghost use Rattle.index.specs.Index.{tags};

use std::marker::Model;

pub(crate) const BUCKETS: usize = 1024;

// The tags, a bit each above a record's number.
pub const TAGS: usize = 4;

const RULE_CLASSES: usize = 4096;

// A number below N.
#[derive(Clone, Copy)]
pub struct Below<const N: usize> {
    number: usize,
}

impl<const N: usize> Model for Below<N> {
    ghost use Rattle.std.specs.Prelude.{ℕ, ◌<◌};

    ghost Value = { ℕ };

    ghost view = { λ a. a.number };

    ghost inverse = { λ n. record { number = n } };

    ghost invariant = { λ a. a.number < N };
}

pub type Bucket = Below<BUCKETS>;

pub type Class = Below<RULE_CLASSES>;

impl<const N: usize> Below<N> {
    // That of any number. `0 < N` is asked as in `octets`: there is no type of positive numbers.
    pub fn of(number: usize) -> Below<N>
        requires { 0 < N }
        ensures { result ≡ number % N }
    {
        Below { number: number % N }
    }

    pub fn number(self) -> usize
        ensures { result ≡ self.entry }
    {
        self.number
    }
}

impl Below<RULE_CLASSES> {
    pub fn bucket(self) -> Bucket
        ensures { result ≡ self / tags }
    {
        Below {
            number: self.number / TAGS,
        }
    }

    pub(crate) fn tag(self) -> usize
        ensures { result ≡ self % tags }
    {
        self.number % TAGS
    }
}
