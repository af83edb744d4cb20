// The records of a site by number, and an index of them that a call keeps on its stack. A record falls into a bucket by what it is looked up by. The
// index has a link for each record, the next record of its bucket in file order, then a head for each bucket, its first record, then the first and the
// last record of each kind, and last, for each fourth record, how many records from there on have state, and which of the four do. The number of records
// ends a chain: it bounds the slices too, and fits the word, as an Option would not. Above the record's number a link or a head has the tags of the rules
// from there on in its chain, a bit each, so that a walk for rules ends where none of their tag is left. Nothing else knows where these stand. `as` widens a
// u32, which has no From to usize, and narrows what is known to fit, where try_from would test it again.
#![tactic(auto)]

ghost use Rattle.std.specs.Prelude.{◌≡◌, [], ℕ, ◌+◌, ◌*◌, ◌%◌, ◌≤◌, ◌<◌, eqb, length, get_or, if◌then◌else◌};
ghost use Rattle.octets.specs.Octets.{field};
ghost use Rattle.model.specs.Words.{keep};
ghost use Rattle.model.specs.Numbers.{access_rule};
ghost use Rattle.model.specs.Site as Site;
ghost use Rattle.model.specs.Site.{records};
ghost use Rattle.model.specs.State.{kept};
ghost use Rattle.index.specs.Index as Index;
ghost use Rattle.index.specs.Index.{most_records, kind_classes, object_bucket, rule_class, factor_bucket, next_in, IndexedFrom};
ghost use Rattle.index.specs.Slots.{Slotted};

mod bucket; // bucket.rt: buckets, and the classes of rules
mod chain; // chain.rt: the records of a bucket from one on
mod indexed; // indexed.rt: a site with its index, and the first record in it of what is sought

use bucket::BUCKETS;
pub use bucket::{Below, Bucket, Class, TAGS};
pub use chain::Chain;
pub use indexed::{IndexedSite, Keyed, LONG_CHAIN, Sought};
use model::layout::FACTOR_VALUE;
use model::numbers::{ACCESS_RULE, AUTHENTICATION_FACTOR, LOCATION_EVERYWHERE, ROLE_IDENTIFYING};
use octets::Number;
use records::Record;
use records::site::{
    format_of, instance_of, is_everywhere, is_kept, kind_of, location_kind_of, location_of, role_of,
};

// The most records of a site, whose links come first; the buckets, whose heads follow; the classes of kinds, whose heads and last records come before the
// counts.
pub const MOST_RECORDS: usize = 2000;

const KIND_CLASSES: usize = 8;

// Where the counts stand: they are of each fourth record alone, so that a call keeps below 8 KiB of stack.
const COUNTS: usize = 3040;

const COUNT_STEP: usize = 4;

// A count has how many records have state above the bits of its four records.
const COUNT_SCALE: u16 = 16;

pub const INDEX_SIZE: usize = 3541;

// The numbers of an index, as one array: memory is fixed, and the definitions (`head`, `link`, `kind_head`) speak of one list of numbers.
pub type Words = [u16; INDEX_SIZE];

// What an index holds before it is built. Its two bytes differ, since a fill with equal bytes becomes a call of memset.
pub const UNBUILT: u16 = 2000;

// What a bucket is computed with: multiples of 2^30 by numbers far from all fractions, so that neither runs nor steps of instances and values meet.
const SPREAD_FIRST: usize = 663608941;

const SPREAD_SECOND: usize = 444758427;

const SPREAD_THIRD: usize = 786033565;

const SPREAD_SCALE: usize = 1048576;

const SPREAD_TURN: usize = 204;

// A class is chosen by two bits more than a bucket.
const CLASS_SCALE: usize = 262144;

// Where a record stands: its number among the records of the site, and that of its state record among those of the state.
#[derive(Clone, Copy)]
pub struct Place {
    pub site: usize,
    pub state: usize,
}

// Where a record goes: its bucket, and the bit of its tag, where it is a rule. That it is the slot of a record (`Slotted`) is no part of it: the type would
// name the record.
#[derive(Clone, Copy)]
pub struct Slot {
    pub bucket: Bucket,
    pub mark: u16,
}

// The records of a site: its whole groups of 32 bytes.
#[tactic(auto, unfolding(model::specs::Site::records))]
pub fn records(site: &[u8]) -> &[Record]
    ensures { result.now ≡ records site.now }
{
    octets::groups(site)
}

// The i-th record, as a part of the site. Its bound is asked, as of any lookup by number.
#[tactic(auto, using(crate::proofs::Building::length_records), unfolding(model::specs::Site::records))]
pub fn record_at(site: &[u8], i: usize) -> &Record
    requires { i < length (records site.now) }
    ensures { result.now ≡ get_or (records site.now) i [] }
{
    octets::group(site, i)
}

// How many of some records have state.
pub fn kept_count(records: &[Record]) -> usize
    ensures { result ≡ length (keep kept records.now) }
{
    records.iter().filter(|part| is_kept(*part)).count()
}

fn mixed(a: u32, b: u32, c: u32) -> usize
    ensures { result ≡ Index.mixed a b c }
{
    (a as usize) * SPREAD_FIRST + (b as usize) * SPREAD_SECOND + (c as usize) * SPREAD_THIRD
}

#[tactic(auto, unfolding(crate::specs::Index::spread))]
fn spread(a: u32, b: u32, c: u32, turn: u16) -> Bucket
    ensures { result ≡ Index.spread a b c turn }
{
    Bucket::of(mixed(a, b, c) / SPREAD_SCALE + usize::from(turn) * SPREAD_TURN)
}

// The bucket of a zone, a point or a credential. A kind is the byte of a record here and below: what is hashed is that number.
pub fn object_bucket(kind: u8, instance: u32) -> Bucket
    ensures { result ≡ object_bucket kind instance }
{
    spread(instance, 0, 0, u16::from(kind))
}

// The class of the rules of a rights number at a location; everywhere is location 0 of kind 0, as in the definition.
#[tactic(auto, unfolding(crate::specs::Index::rule_class))]
pub fn rule_class(rights: u32, kind: u8, location: u32) -> Class
    ensures { result ≡ rule_class rights kind location }
{
    let turn = usize::from(ACCESS_RULE) * SPREAD_TURN * TAGS;
    Class::of(mixed(rights, location, u32::from(kind)) / CLASS_SCALE + turn)
}

// The bucket of the factors of a format, of the value at an offset and, where they confirm, of a credential.
fn factor_bucket(format: u8, part: &[u8], at: usize, owner: u32) -> Bucket
    requires { at + 8 ≤ length part.now }
    ensures { result ≡ factor_bucket format (field at 4 part.now) (field (at + 4) 4 part.now) owner }
{
    let turn = u16::from(format) + u16::from(AUTHENTICATION_FACTOR);
    spread(u32::get(part, at + 4), u32::get(part, at), owner, turn)
}

// The same of a value by itself.
pub fn value_bucket(format: u8, value: [u8; 8], owner: u32) -> Bucket
    ensures { result ≡ factor_bucket format (field 0 4 value) (field 4 4 value) owner }
{
    factor_bucket(format, &value, 0, owner)
}

// 0 stands for no credential in what is hashed, as in the definition.
#[tactic(auto, unfolding(crate::specs::Index::owner))]
fn owner_of(part: &Record) -> u32
    ensures { result ≡ Index.owner part.now }
{
    if role_of(part) == ROLE_IDENTIFYING {
        return 0;
    }
    instance_of(part)
}

#[tactic(auto, unfolding(crate::specs::Index::class_of_rule))]
fn class_of_rule(part: &Record) -> Class
    ensures { result ≡ Index.class_of_rule part.now }
{
    let rights = instance_of(part);
    if is_everywhere(part) {
        return rule_class(rights, LOCATION_EVERYWHERE, 0);
    }
    rule_class(rights, location_kind_of(part), location_of(part))
}

fn slot_of_rule(part: &Record) -> Slot
    requires { Site.kind part.now ≡ access_rule }
    ensures { Slotted part.now result }
{
    let class = class_of_rule(part);
    Slot {
        bucket: class.bucket(),
        mark: 1 << class.tag(),
    }
}

#[tactic(auto, unfolding(crate::specs::Index::bucket_of, crate::specs::Index::mark_of))]
fn slot_of_other(part: &Record) -> Slot
    requires { Site.kind part.now ≡ access_rule → ⊥ }
    ensures { Slotted part.now result }
{
    let kind = kind_of(part);
    if kind == AUTHENTICATION_FACTOR {
        return Slot {
            bucket: factor_bucket(format_of(part), part, FACTOR_VALUE, owner_of(part)),
            mark: 0,
        };
    }
    Slot {
        bucket: object_bucket(kind, instance_of(part)),
        mark: 0,
    }
}

fn kind_class(kind: u8) -> usize
    ensures { result ≡ kind % kind_classes }
{
    usize::from(kind) % KIND_CLASSES
}

// The chain of a bucket, and what of it follows the i-th record, by the words alone; a site with its index has `head` and `link`.
pub fn head_of(words: &Words, bucket: Bucket) -> Chain
    ensures { result.0 ≡ Index.head bucket words.now }
{
    Chain(words[MOST_RECORDS + bucket.number()])
}

pub fn link_of(words: &Words, i: usize) -> Chain
    requires { i < most_records }
    ensures { result.0 ≡ Index.link i words.now }
{
    Chain(words[i])
}

// An index of no record yet: every bucket ends at once. An index half built has no type of its own, since each step states another number of records.
pub fn empty(records: &[Record], words: &mut Words)
    requires { length records.now ≤ most_records }
    ensures { IndexedFrom (length records.now) records.now words.new }
{
    let end = records.len() as u16;
    words[MOST_RECORDS..COUNTS].fill(end);
    words[COUNTS + records.len() / COUNT_STEP] = 0;
}

// The last record of a class with the i-th in it: the one that was, or the i-th, where the class was empty.
fn last_after(head: u16, last: u16, end: u16, i: u16) -> u16
    ensures { result ≡ (if eqb head end then i else last) }
{
    if head == end { i } else { last }
}

// The count from the i-th record on, of that from the next one on: the bits of other four are left.
fn count_more(next: u16, i: usize, has: bool) -> u16
    requires { next ≤ 65000 }
    ensures { result ≡ Index.count_more next i has }
{
    let at = i % COUNT_STEP;
    let kept = if at == COUNT_STEP - 1 {
        next / COUNT_SCALE * COUNT_SCALE
    } else {
        next
    };
    let more = if has { COUNT_SCALE + (1 << at) } else { 0 };
    kept + more
}

// The i-th record is put at the head of its slot's bucket, and of its kind's class.
fn put(records: &[Record], words: &mut Words, i: usize, slot: Slot)
    requires indexed_from { IndexedFrom (i + 1) records.now words.old }
    requires i_in_bounds { (i < length records.now) × Slotted (get_or records.now i []) slot }
    ensures { IndexedFrom i records.now words.new }
{
    let head = MOST_RECORDS + slot.bucket.number();
    let kind_head = MOST_RECORDS + BUCKETS + kind_class(kind_of(&records[i]));
    let kind_last = kind_head + KIND_CLASSES;
    let last = last_after(
        words[kind_head],
        words[kind_last],
        records.len() as u16,
        i as u16,
    );
    let next = words[COUNTS + (i + 1) / COUNT_STEP];
    let count = count_more(next, i, is_kept(&records[i]));
    let chain = words[head];
    words[i] = chain;
    words[head] = Chain(chain).before(slot.mark, i as u16).0;
    words[kind_head] = i as u16;
    words[kind_last] = last;
    words[COUNTS + i / COUNT_STEP] = count;
}

// The i-th record is put before the later ones of its bucket. Rules are put by themselves, so that no work is left for the mark of the others.
pub fn insert(records: &[Record], words: &mut Words, i: usize)
    requires indexed_from { IndexedFrom (i + 1) records.now words.old }
    requires i_in_bounds { i < length records.now }
    ensures { IndexedFrom i records.now words.new }
{
    let part = &records[i];
    if kind_of(part) == ACCESS_RULE {
        put(records, words, i, slot_of_rule(part));
        return;
    }
    put(records, words, i, slot_of_other(part));
}

// The first record of a kind from a number on, or the number of records, where there is none.
fn next_of_kind(records: &[Record], kind: u8, from: usize) -> usize
    ensures { result ≡ next_in Site.kind kind from records.now }
{
    let Some(later) = records.get(from..) else {
        return from;
    };
    match later.iter().position(|part| kind_of(part) == kind) {
        Some(at) => from + at,
        None => records.len(),
    }
}

// The record that a walk for a kind tries after the i-th, by the words alone, so that it serves an index half built too: the next of its bucket, or the
// next of the kind, which is sought from the first of its class on, and not at all behind the last.
pub fn after(site: &[u8], words: &Words, kind: u8, i: usize, along: bool) -> usize
    requires { (i < most_records) × (i < length (records site.now)) }
    ensures { (k : ℕ) → k ≤ i → IndexedFrom k (records site.now) words.now → result ≡ Index.after along kind i (records site.now) words.now }
{
    if along {
        return link_of(words, i).record();
    }
    let records = records(site);
    let head = MOST_RECORDS + BUCKETS + kind_class(kind);
    if usize::from(words[head + KIND_CLASSES]) <= i {
        return records.len();
    }
    next_of_kind(records, kind, usize::from(words[head]).max(i + 1))
}
