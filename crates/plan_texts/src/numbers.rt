// The number at the front of a text from the host.
ghost use Rattle.std.specs.Prelude.{◌≡◌, leb, take, length};
ghost use Rattle.std.specs.List.{prefix_len};
ghost use Rattle.plan_texts.specs.Form.Reading.{is_digit, value_from};
ghost use Rattle.plan_texts.specs.ReaderSays.{Reads, NumberReads};

// The most digits of a number.
const MAX_DIGITS: usize = 3;

// How many digits are at the front, up to three.
fn digit_count(text: &[u8]) -> usize
    ensures { result ≡ length (take (prefix_len is_digit (take 3 text.now)) (take 3 text.now)) }
{
    text.iter()
        .take(MAX_DIGITS)
        .take_while(|byte| byte.is_ascii_digit())
        .count()
}

// The value of digits, if it is at most 255.
fn value_of(digits: &[u8]) -> Option<u8>
    ensures { Reads (leb (value_from 0 digits.now) 255) result (λ value. value ≡ value_from 0 digits.now) }
{
    let mut value = 0u8;
    for digit in digits {
        value = value
            .checked_mul(10)?
            .checked_add(digit.saturating_sub(b'0'))?;
    }
    Some(value)
}

// The number at the front of a text, and what follows its digits.
pub fn number(text: &[u8]) -> Option<(u8, &[u8])>
    ensures { NumberReads text.now result }
{
    let (digits, rest) = text.split_at(digit_count(text));
    if digits.is_empty() {
        return None;
    }
    Some((value_of(digits)?, rest))
}
