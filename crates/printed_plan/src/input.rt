// The input of the printed plan: its two numbers, if it has its form.
ghost use Rattle.std.specs.Prelude.{◌≡◌, true, false, ◌+◌, ◌-◌, ◌≤◌, ◌<◌, drop, get_or, MatchOption};
ghost use Rattle.printed_plan.specs.Input.{input_of, value_to, first_value, second_value, is_form};

use text::Buffer;

// The bytes of the longest input of its form.
const INPUT_BYTES: usize = 13;

// What each of its numbers is below.
const NUMBER_END: usize = 100;

// Where the first number begins.
const FIRST_NUMBER: usize = 7;

// Where its second digit is, or a comma.
const SECOND_DIGIT: usize = 8;

// Where the second number begins after a first one of one digit.
const AFTER_ONE_DIGIT: usize = 9;

// And after a first one of two digits.
const AFTER_TWO_DIGITS: usize = 10;

// The input for two numbers.
fn input_of(first: u8, second: u8) -> Buffer<INPUT_BYTES>
    requires { (first < 100) × (second < 100) }
    ensures { result ≡ input_of first second }
{
    let mut text = Buffer::new();
    text.extend_from_slice(b"p,lost\n");
    text.push_field(first, b',');
    text.push_field(second, b'\n');
    text
}

// The byte at a place, 0 past the end.
fn byte_at(text: &[u8], at: usize) -> u8
    ensures { result ≡ get_or text.now at 0 }
{
    text.get(at).copied().unwrap_or(0)
}

// The value of the digit at a place, 0 where there is no byte or one below the digits.
fn digit_at(text: &[u8], at: usize) -> usize
    ensures { result ≡ get_or text.now at 0 - 48 }
{
    usize::from(byte_at(text, at).saturating_sub(b'0'))
}

// The number from a place on, of one digit if the byte `stop` follows it, else of two.
fn value(text: &[u8], at: usize, stop: u8) -> usize
    requires { at < 100 }
    ensures { result ≡ value_to stop (drop at text.now) }
{
    let first = digit_at(text, at);
    if byte_at(text, at + 1) == stop {
        first
    } else {
        10 * first + digit_at(text, at + 1)
    }
}

// The second number of the values line.
fn second_value(text: &[u8]) -> usize
    ensures { result ≡ second_value text.now }
{
    let at = if byte_at(text, SECOND_DIGIT) == b',' {
        AFTER_ONE_DIGIT
    } else {
        AFTER_TWO_DIGITS
    };
    value(text, at, b'\n')
}

// The two numbers of an input of its form: it has to be the input for them, byte for byte.
pub fn parse(text: &[u8]) -> Option<(usize, usize)>
    ensures { MatchOption result (is_form text.now ≡ false) (λ n. (is_form text.now ≡ true) × (n.0 ≡ first_value text.now) × (n.1 ≡ second_value text.now)) }
{
    let first = value(text, FIRST_NUMBER, b',');
    let second = second_value(text);
    if first >= NUMBER_END || second >= NUMBER_END {
        return None;
    }
    let expected = input_of(first as u8, second as u8);
    if text == expected.as_slice() {
        Some((first, second))
    } else {
        None
    }
}
