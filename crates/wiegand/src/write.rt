// The way back: facility and card to the bits of a reader.
ghost use Rattle.std.specs.Prelude.{◌≡◌};
ghost use Rattle.wiegand.specs.Wiegand.{write_wiegand26};

// The number whose bits are facility and card, as C lends them, between their parity bits.
#[tactic(auto, using(crate::proofs::Fields::written_number))]
pub fn write_wiegand26(facility: u8, card: u16) -> u32
    ensures { result ≡ write_wiegand26 facility card }
{
    let [high, low] = card.to_be_bytes();
    let between = u32::from_be_bytes([0, facility, high, low]);
    let first = (between / 4096).count_ones() % 2;
    let last = 1 - (between % 4096).count_ones() % 2;
    (first << 25) + (between << 1) + last
}
