// Numbers of 1, 2, 4 and 8 bytes, big-endian, at an offset of a lent part; groups of one size of a slice; comparison of two runs of bytes.
#![tactic(auto)]

ghost use Rattle.std.specs.Prelude.{◌≡◌, ℕ, List, [], ◌++◌, ◌+◌, ◌*◌, ◌/◌, ◌≤◌, ◌<◌, length, map, take, drop, get_or};
ghost use mathlib.Core.List.{flatten};
ghost use Rattle.octets.specs.Octets.{field, put, groups, with_part, same};

// A number of a fixed width, in big-endian bytes. That they are within the part is asked at each offset, as the bounds of an index are.
pub trait Number: Copy {
    ghost width: { ℕ };

    ghost number: { Self → ℕ };

    fn get(part: &[u8], at: usize) -> Self
        requires { at + width ≤ length part.now }
        ensures { number result ≡ field at width part.now };

    fn put(self, part: &mut [u8], at: usize)
        requires { at + width ≤ length part.old }
        ensures { part.new ≡ put at width (number self) part.old };
}

// Writes the bytes from the start on. It stands apart, since what a chunk leaves is known where the chunk is a whole parameter's.
fn put_first<const N: usize>(part: &mut [u8], bytes: &[u8; N])
    requires { N ≤ length part.old }
    ensures { part.new ≡ bytes.now ++ drop N part.old }
{
    let Some(first) = part.first_chunk_mut() else {
        unreachable!()
    };
    *first = *bytes;
}

// Writes the bytes from an offset on.
fn put_bytes<const N: usize>(part: &mut [u8], at: usize, bytes: &[u8; N])
    requires { at + N ≤ length part.old }
    ensures { part.new ≡ take at part.old ++ (bytes.now ++ drop (at + N) part.old) }
{
    put_first(&mut part[at..], bytes);
}

impl Number for u8 {
    ghost width = { 1 };

    ghost number = { λ n. n };

    #[tactic(auto, unfolding(crate::specs::Octets::field))]
    fn get(part: &[u8], at: usize) -> u8 {
        part[at]
    }

    #[tactic(auto, using(crate::proofs::Laws::put_one))]
    fn put(self, part: &mut [u8], at: usize) {
        part[at] = self;
    }
}

// The bytes of a wider number are read one by one: the length of a chunk would be tested at each read.
impl Number for u16 {
    ghost width = { 2 };

    ghost number = { λ n. n };

    #[tactic(auto, unfolding(crate::specs::Octets::field))]
    fn get(part: &[u8], at: usize) -> u16 {
        u16::from_be_bytes([part[at], part[at + 1]])
    }

    #[tactic(auto, unfolding(crate::specs::Octets::put, crate::specs::Octets::digits))]
    fn put(self, part: &mut [u8], at: usize) {
        put_bytes(part, at, &u16::to_be_bytes(self));
    }
}

impl Number for u32 {
    ghost width = { 4 };

    ghost number = { λ n. n };

    #[tactic(auto, unfolding(crate::specs::Octets::field))]
    fn get(part: &[u8], at: usize) -> u32 {
        u32::from_be_bytes([part[at], part[at + 1], part[at + 2], part[at + 3]])
    }

    #[tactic(auto, unfolding(crate::specs::Octets::put, crate::specs::Octets::digits))]
    fn put(self, part: &mut [u8], at: usize) {
        put_bytes(part, at, &u32::to_be_bytes(self));
    }
}

impl Number for u64 {
    ghost width = { 8 };

    ghost number = { λ n. n };

    #[tactic(auto, unfolding(crate::specs::Octets::field))]
    fn get(part: &[u8], at: usize) -> u64 {
        u64::from_be_bytes([
            part[at],
            part[at + 1],
            part[at + 2],
            part[at + 3],
            part[at + 4],
            part[at + 5],
            part[at + 6],
            part[at + 7],
        ])
    }

    #[tactic(auto, unfolding(crate::specs::Octets::put, crate::specs::Octets::digits))]
    fn put(self, part: &mut [u8], at: usize) {
        put_bytes(part, at, &u64::to_be_bytes(self));
    }
}

// The whole groups of N bytes that the slice has. There is no type of positive numbers for a const parameter, so that each function asks `0 < N`.
#[tactic(auto, using(crate::proofs::GroupLaws::chunks_groups))]
pub fn groups<const N: usize>(bytes: &[u8]) -> &[[u8; N]]
    requires { 0 < N }
    ensures { result.now ≡ groups N (length bytes.now / N) bytes.now }
{
    bytes.as_chunks::<N>().0
}

// How many they are.
pub fn group_count<const N: usize>(bytes: &[u8]) -> usize
    requires { 0 < N }
    ensures { result ≡ length bytes.now / N }
{
    bytes.len() / N
}

// The i-th of them, as a part of the slice.
#[tactic(auto, using(crate::proofs::GroupLaws::length_groups))]
pub fn group<const N: usize>(bytes: &[u8], i: usize) -> &[u8; N]
    requires size { 0 < N }
    requires in_range { i < length bytes.now / N }
    ensures { result.now ≡ get_or (groups N (length bytes.now / N) bytes.now) i [] }
{
    &groups(bytes)[i]
}

// Writes the i-th of them. By number, here and in `put_each`: of chunks lent to be written the library says nothing of what the slice ends as.
#[tactic(auto, unfolding(crate::specs::Octets::with_part))]
pub fn put_group<const N: usize>(bytes: &mut [u8], i: usize, part: &[u8; N])
    requires size { 0 < N }
    requires in_range { i < length bytes.old / N }
    ensures { bytes.new ≡ with_part N i part.now bytes.old }
{
    put_bytes(bytes, i * N, part);
}

// What makes N bytes of an item. A trait and no closure: of a closure `put_each` could only promise that some results of it were written.
pub trait Chunk<T, const N: usize> {
    ghost chunk: { T → List ℕ };

    fn chunk(item: &T) -> [u8; N]
        ensures { result ≡ chunk item.now };
}

// Writes the bytes made of each item, one after the other from the start on.
#[tactic(auto, using(crate::proofs::Written::written_start, crate::proofs::Written::written_end))]
pub fn put_each<C: Chunk<T, N>, T, const N: usize>(bytes: &mut [u8], items: &[T])
    requires size { 0 < N }
    requires in_range { length items.now * N ≤ length bytes.old }
    ensures { bytes.new ≡ flatten (map C.chunk items.now) ++ drop (length items.now * N) bytes.old }
{
    for (i, item) in items.iter().enumerate() {
        put_group(bytes, i, &C::chunk(item));
    }
}

// Whether two runs of bytes are the same. Inlined, and with no early end: eight bytes are then joined without a branch and tested once, where `==` of slices
// is a call.
#[tactic(auto, using(crate::proofs::Laws::same_lengths))]
#[inline(always)]
pub fn same_bytes(a: &[u8], b: &[u8]) -> bool
    ensures { result ≡ same a.now b.now }
{
    a.len() == b.len() && a.iter().zip(b).fold(true, |all, (x, y)| all & (x == y))
}
