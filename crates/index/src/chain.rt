// The records of a bucket from one on: the number of the first below a scale, and above it the tags of the rules among them, a bit each.
ghost use Rattle.std.specs.Prelude.{◌≡◌, ◌+◌, ◌*◌, ◌/◌, ◌%◌, ◌<◌};
ghost use Rattle.std.specs.Int.Bits.{bit_or};
ghost use Rattle.model.specs.Words.{bit};
ghost use Rattle.index.specs.Index.{chain_scale, tags, record_of};

use super::TAGS;

// What the tags are multiples of: a record's number, or the number of records, is below it.
const CHAIN_SCALE: u16 = 2048;

#[derive(Clone, Copy)]
pub struct Chain(pub u16);

impl Chain {
    // Its first record, or the number of records, where it has none.
    pub fn record(self) -> usize
        ensures { result ≡ record_of self.0 }
    {
        usize::from(self.0 % CHAIN_SCALE)
    }

    // Whether it may hold a rule of the class: one of its tag is in it.
    pub fn may_hold(self, class: usize) -> bool
        ensures { result ≡ bit (self.0 / chain_scale) (class % tags) }
    {
        ((self.0 / CHAIN_SCALE) >> (class % TAGS)) % 2 == 1
    }

    // The chain with the i-th record, which has a mark, before its first.
    pub(crate) fn before(self, mark: u16, i: u16) -> Chain
        requires { (i < chain_scale) × (mark < 32) }
        ensures { result.0 ≡ i + bit_or mark (self.0 / chain_scale) * chain_scale }
    {
        Chain(i + (mark | (self.0 / CHAIN_SCALE)) * CHAIN_SCALE)
    }
}
