// A site with the index of its records, and the first record in it of what is sought.
ghost use Rattle.std.specs.Prelude.{◌≡◌, ℕ, List, Bool, true, [], ◌+◌, ◌*◌, ◌/◌, ◌%◌, ◌≤◌, ◌<◌, length, drop, get_or, position};
ghost use Rattle.model.specs.Site as Site;
ghost use Rattle.model.specs.Site.{records};
ghost use Rattle.model.specs.State.{state_length};
ghost use Rattle.index.specs.Index.{most_records, count_step, kept_from, count_from, kind_classes, kind_class, bucket_of, next_in, ChainFrom, Indexed, OfBucket};
ghost use Rattle.index.specs.Place.{place_from, place_at};

use super::{
    BUCKETS, Bucket, COUNT_SCALE, COUNT_STEP, COUNTS, Chain, KIND_CLASSES, MOST_RECORDS, Place,
    Words,
};
use model::numbers::RECORD_SIZE;
use records::Record;
use std::marker::Model;

// How many links of a chain are followed at most; from there on the records of the kind are tried one by one. Each link waits for the one before, so
// that in a site made to fall into one bucket a scan is quicker.
pub const LONG_CHAIN: usize = 8;

// What is sought among the records: those that pass a test, all of one bucket and one kind.
pub trait Sought: Copy {
    ghost fits: { Self → List ℕ → Bool };

    ghost bucket: { Self → ℕ };

    ghost kind: { Self → ℕ };

    fn fits(self, part: &Record) -> bool
        ensures { result ≡ fits self part.now };

    fn kind(self) -> u8
        ensures { result ≡ kind self };

    ghost of_bucket: { (s : Self) (part : List ℕ) → fits s part ≡ true → bucket_of part ≡ bucket s };

    ghost of_kind: { (s : Self) (part : List ℕ) → fits s part ≡ true → Site.kind part ≡ kind s };
}

// What is sought from the first record of its bucket on.
pub trait Keyed: Sought {
    fn bucket(self) -> Bucket
        ensures { result ≡ Self.bucket self };
}

// The place of the first of some records that is sought.
fn place_among<S: Sought>(records: &[Record], sought: S) -> Option<usize>
    ensures { result ≡ position (S.fits sought) records.now }
{
    records.iter().position(|part| sought.fits(part))
}

// A site whose records are all in its index, seen as its bytes. That they are whole records, and a state as long, is not of the type: the lookups ask it of no
// caller.
#[derive(Drop)]
pub struct IndexedSite<'s, 'w> {
    site: &'s [u8],
    words: &'w Words,
}

impl<'s, 'w> Model for IndexedSite<'s, 'w> {
    ghost use Rattle.std.specs.Prelude.{ℕ, List};
    ghost use Rattle.index.specs.Index.{Indexed};

    ghost Value = { List ℕ };

    ghost view = { λ a. a.site.now };

    ghost invariant = { λ a. Indexed a.site.now a.words.now };
}

impl<'s, 'w> IndexedSite<'s, 'w> {
    pub fn new(site: &'s [u8], words: &'w Words) -> IndexedSite<'s, 'w>
        requires { Indexed site.now words.now }
        ensures { result ≡ site.now }
    {
        IndexedSite { site, words }
    }

    pub fn records(&self) -> &'s [Record]
        ensures value { result.now ≡ records self.now }
        ensures few { length (records self.now) ≤ most_records }
    {
        super::records(self.site)
    }

    // The i-th of them.
    pub fn record_at(&self, i: usize) -> &'s Record
        requires { i < length (records self.now) }
        ensures { result.now ≡ get_or (records self.now) i [] }
    {
        super::record_at(self.site, i)
    }

    // The chain of a bucket.
    pub fn head(&self, bucket: Bucket) -> Chain
        ensures { ChainFrom bucket 0 (records self.now) result.0 }
    {
        super::head_of(self.words, bucket)
    }

    // What follows the i-th record in the chain of its bucket.
    pub fn link(&self, i: usize) -> Chain
        requires { i < length (records self.now) }
        ensures { ChainFrom (bucket_of (get_or (records self.now) i [])) (i + 1) (records self.now) result.0 }
    {
        super::link_of(self.words, i)
    }

    // The count of the fourth record at or before the i-th.
    fn count_of(&self, i: usize) -> u16
        requires { i < length (records self.now) }
        ensures { result ≡ count_from (i / count_step * count_step) (records self.now) }
    {
        self.words[COUNTS + i / COUNT_STEP]
    }

    // How many records have state.
    fn kept_count(&self) -> u16
        ensures { result ≡ kept_from 0 (records self.now) }
    {
        self.words[COUNTS] / COUNT_SCALE
    }

    // How long the state is.
    #[tactic(auto, unfolding(model::specs::State::state_length))]
    pub fn state_length(&self) -> usize
        ensures { result ≡ state_length self.now }
    {
        usize::from(self.kept_count()) * RECORD_SIZE
    }

    // Where the i-th record and its state record stand, without a look at another record.
    pub fn place(&self, i: usize) -> Place
        requires { i < length (records self.now) }
        ensures { result ≡ place_at i (records self.now) }
    {
        let count = self.count_of(i);
        let before = self.kept_count() - count / COUNT_SCALE;
        let bits = count % (1 << (i % COUNT_STEP));
        Place {
            site: i,
            state: usize::from(before) + bits.count_ones() as usize,
        }
    }

    // The first record of a kind's class, or the number of records, where it has none. A kind is the byte of a record, as for `object_bucket`.
    fn first_of_kind(&self, kind: u8) -> usize
        ensures { result ≡ next_in kind_class (kind % kind_classes) 0 (records self.now) }
    {
        usize::from(self.words[MOST_RECORDS + BUCKETS + super::kind_class(kind)])
    }

    // The number after its last, where it has one.
    fn end_of_kind(&self, kind: u8) -> usize
        ensures { next_in kind_class (kind % kind_classes) 0 (records self.now) < length (records self.now) → next_in kind_class (kind % kind_classes) result (records self.now) ≡ length (records self.now) }
    {
        usize::from(self.words[MOST_RECORDS + BUCKETS + KIND_CLASSES + super::kind_class(kind)]) + 1
    }

    // The first record of what is sought from a number on, among those of its kind one by one: none comes before the first of its class, and none after
    // the last.
    fn scan<S: Sought>(&self, sought: S, from: usize) -> Option<usize>
        requires { from ≤ length (records self.now) }
        ensures { result ≡ place_from (S.fits sought) from (drop from (records self.now)) }
    {
        let records = self.records();
        let kind = sought.kind();
        let first = self.first_of_kind(kind).max(from);
        let end = self.end_of_kind(kind).clamp(first, records.len());
        let at = place_among(&records[first..end], sought)?;
        Some(first + at)
    }

    // The same along the chain of its bucket, as long as that is short. Start and steps are read of the words, as a walk has them (`walk_from`, `walk_past`).
    fn first_from<S: Sought>(&self, sought: S, from: usize) -> Option<usize>
        requires { OfBucket (S.bucket sought) from (records self.now) }
        ensures { result ≡ place_from (S.fits sought) from (drop from (records self.now)) }
    {
        let records = self.records();
        let mut at = from;
        for _ in 0..LONG_CHAIN {
            if at == records.len() {
                return None;
            }
            if sought.fits(&records[at]) {
                return Some(at);
            }
            at = super::link_of(self.words, at).record();
        }
        self.scan(sought, at)
    }

    // The first record of what is sought.
    pub fn first<S: Keyed>(&self, sought: S) -> Option<usize>
        ensures { result ≡ place_from (S.fits sought) 0 (records self.now) }
    {
        let head = super::head_of(self.words, sought.bucket());
        self.first_from(sought, head.record())
    }

    // The first of them after the i-th record, which is of their bucket.
    pub fn first_after<S: Sought>(&self, sought: S, i: usize) -> Option<usize>
        requires i_in_bounds { i < length (records self.now) }
        requires of_bucket { bucket_of (get_or (records self.now) i []) ≡ S.bucket sought }
        ensures { result ≡ place_from (S.fits sought) (i + 1) (drop (i + 1) (records self.now)) }
    {
        self.first_from(sought, self.link(i).record())
    }
}
