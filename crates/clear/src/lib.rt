// What the compiler calls memset for: it clears the index that a call keeps on its stack before the call fills it. library/build joins this function to
// the library under that name, so that the library needs no other.
#![tactic(auto)]

ghost use Rattle.std.specs.Prelude.{◌≡◌, ◌%◌};
ghost use Rattle.clear.specs.Clear.{with_first};

// The first bytes of an index, `count` of them, or all where it has fewer.
#[tactic(auto, using(crate::proofs::Laws::first_made))]
#[unsafe(no_mangle)]
pub extern "C" fn warblehay_clear(index: &mut [u8; 7082], byte: u32, count: usize)
    ensures { index.new ≡ with_first count (byte % 256) index.old }
{
    // The remainder is a byte.
    let low = (byte % 256) as u8;
    let end = count.min(index.len());
    index[..end].fill(low);
}
