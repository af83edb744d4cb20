// Raw 26-bit readers (document 02, job 12): what the definitions in specs/ speak of, and the two ways.
#![tactic(auto)]

pub mod read; // read.rt: the bits of a reader to the factor of a journal entry
pub mod write; // write.rt: the way back, from facility and card to bits

// The format of a factor that 26 bits become, and their count.
pub const FORMAT_WIEGAND26: u8 = 8;

pub const WIEGAND26_BITS: u32 = 26;

// How many numbers they can make: one above the largest.
pub const WIEGAND26_NUMBERS: u64 = 67108864;

// The factor that 26 bits become: what a journal entry asks of it.
#[derive(Clone, Copy)]
pub struct Factor {
    pub format: u8,
    pub value: [u8; 8],
}

// Why bits are turned away: another count, or a number of more bits.
#[derive(Clone, Copy)]
pub struct NotTwentySixBits;
