// The characters of a printed journal and the lengths of its lines, by name.
use model::numbers::ANSWER_SIZE;

// The digits 0 to 9 from here on.
pub const DIGIT_ZERO: u8 = b'0';

// The digits A to F as 10 to 15 from here on.
pub const LETTER_BASE: u8 = b'A' - 10;

pub const LINE_FEED: u8 = b'\n';

// Two digits for each byte of an answer.
pub const LINE_DIGITS: usize = ANSWER_SIZE * 2;

// The digits of an answer and a line feed.
pub const LINE_SIZE: usize = LINE_DIGITS + 1;

// The longest number, of two digits, and a line feed.
pub const NUMBER_SIZE: usize = 3;
