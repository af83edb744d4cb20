// The characters of the text: answers in hexadecimal digits, numbers in decimal, each line with its line feed.
ghost use Rattle.std.specs.Prelude.{◌≡◌, ◌++◌, ◌+◌, ◌*◌, ◌/◌, ◌≤◌, ◌<◌, length, drop};
ghost use Rattle.model.specs.Numbers.{answer_size};
ghost use Rattle.model.specs.Print.{digit_zero, hex_digit, hex_byte, hex_line, answers_text, decimal_line};
ghost use Rattle.print.specs.Print.{line_size, number_size};

use super::numbers::{DIGIT_ZERO, LETTER_BASE, LINE_FEED, LINE_SIZE, NUMBER_SIZE};
use model::numbers::ANSWER_SIZE;
use octets::Chunk;

// Made by hand: std's `char::from_digit` gives a lower case letter and a char, to be turned to upper case and to a byte: no plainer.
#[tactic(auto, unfolding(model::specs::Print::hex_digit))]
fn hex_digit(n: u8) -> u8
    requires { n < 16 }
    ensures { result ≡ hex_digit n }
{
    if n < 10 {
        DIGIT_ZERO + n
    } else {
        LETTER_BASE + n
    }
}

// The two digits of a byte, the high one first.
struct HexDigits;

impl Chunk<u8, 2> for HexDigits {
    ghost chunk = { hex_byte };

    #[tactic(auto, unfolding(model::specs::Print::hex_byte))]
    fn chunk(byte: &u8) -> [u8; 2] {
        [hex_digit(byte / 16), hex_digit(byte % 16)]
    }
}

// The line of an answer: its 32 digits and a line feed.
struct AnswerLine;

impl Chunk<[u8; ANSWER_SIZE], LINE_SIZE> for AnswerLine {
    ghost chunk = { hex_line };

    #[tactic(auto, using(crate::proofs::Chunks::line_ended))]
    fn chunk(answer: &[u8; ANSWER_SIZE]) -> [u8; LINE_SIZE] {
        let mut line = [LINE_FEED; LINE_SIZE];
        octets::put_each::<HexDigits, _, _>(&mut line, answer);
        line
    }
}

// A line for each whole answer, in turn, at the head of the text. Returns how long they are, as `print_journal` does.
#[tactic(auto, using(crate::proofs::Chunks::length_whole))]
pub(super) fn write_answers(answers: &[u8], text: &mut [u8]) -> usize
    requires { length answers.now / answer_size * line_size ≤ length text.old }
    ensures text_after { text.new ≡ answers_text answers.now ++ drop result text.old }
    ensures value { result ≡ length (answers_text answers.now) }
{
    let whole = octets::groups(answers);
    octets::put_each::<AnswerLine, _, _>(text, whole);
    whole.len() * LINE_SIZE
}

// Made by hand: `char::from_digit` gives a char in an Option, to be unwrapped and turned to a byte: no plainer.
fn decimal_digit(n: u32) -> u8
    requires { n < 10 }
    ensures { result ≡ digit_zero + n }
{
    // Below 10 it is a byte.
    DIGIT_ZERO + (n as u8)
}

// A number of one or two digits and a line feed, at the head of the text. Returns how long they are, as `print_journal` does.
// Made by hand: std's `write!` promises its text only where it returned Ok, and `itoa` would be one more library to trust.
pub(super) fn write_decimal_line(text: &mut [u8], number: u32) -> usize
    requires { (number_size ≤ length text.old) × (number < 100) }
    ensures text_after { text.new ≡ decimal_line number ++ drop result text.old }
    ensures value { result ≡ length (decimal_line number) }
{
    if number < 10 {
        text[0] = decimal_digit(number);
        text[1] = LINE_FEED;
        return 2;
    }
    text[0] = decimal_digit(number / 10);
    text[1] = decimal_digit(number % 10);
    text[2] = LINE_FEED;
    NUMBER_SIZE
}
