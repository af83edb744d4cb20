// The bits of a reader to the factor of a journal entry.
ghost use Rattle.std.specs.Prelude.{◌≡◌};
ghost use Rattle.wiegand.specs.Wiegand.{bits, first_parity, last_parity, reading_error, factor_of, read_wiegand26, returned_number};

use crate::{FORMAT_WIEGAND26, Factor, NotTwentySixBits, WIEGAND26_BITS, WIEGAND26_NUMBERS};
use model::numbers::FORMAT_ERROR;

// The number of an outcome in document 02. Its one error has no variant that could be the number.
pub fn number_of(reading: Result<Factor, NotTwentySixBits>) -> u32
    ensures { result ≡ returned_number reading }
{
    match reading {
        Ok(_) => 0,
        Err(NotTwentySixBits) => 17,
    }
}

#[tactic(auto, unfolding(crate::specs::Wiegand::reading_error))]
fn reading_error() -> Factor
    ensures { result ≡ reading_error }
{
    Factor {
        format: FORMAT_ERROR,
        value: [0; 8],
    }
}

// Whether the first 13 of 26 bits have an even number of ones.
#[tactic(auto, unfolding(crate::specs::Wiegand::is_even), using(crate::proofs::Fields::first_parity_law))]
fn has_first_parity(number: u64) -> bool
    ensures { result ≡ first_parity (bits 26 number) }
{
    (number / 8192 % 8192).count_ones() % 2 == 0
}

// Whether the last 13 have an odd number. Two functions: each is a definition, of other bits and another parity.
#[tactic(auto, unfolding(crate::specs::Wiegand::is_even, crate::specs::Wiegand::is_odd), using(crate::proofs::Fields::last_parity_law))]
fn has_last_parity(number: u64) -> bool
    ensures { result ≡ last_parity (bits 26 number) }
{
    (number % 8192).count_ones() % 2 != 0
}

// The factor of 26 bits. Without the last parity bit they end in the bytes that the factor takes over.
#[tactic(auto, unfolding(crate::specs::Wiegand::factor_of, crate::specs::Wiegand::factor, octets::specs::Octets::digits), using(crate::proofs::Fields::facility_number, crate::proofs::Fields::card_number))]
fn factor_of(number: u64) -> Factor
    ensures { result ≡ factor_of (bits 26 number) }
{
    if has_first_parity(number) & has_last_parity(number) {
        let [.., facility, high, low] = (number / 2).to_be_bytes();
        return Factor {
            format: FORMAT_WIEGAND26,
            value: [0, 0, 0, 0, 0, facility, high, low],
        };
    }
    reading_error()
}

// The bits, as one number with the first bit highest, and their count, to a factor. Turned away where they are not 26 bits.
#[tactic(auto, unfolding(crate::specs::Wiegand::read_wiegand26))]
pub fn read_wiegand26(number: u64, count: u32) -> Result<Factor, NotTwentySixBits>
    ensures { result ≡ read_wiegand26 number count }
{
    if (count != WIEGAND26_BITS) | (number >= WIEGAND26_NUMBERS) {
        return Err(NotTwentySixBits);
    }
    Ok(factor_of(number))
}
