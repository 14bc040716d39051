// What is no number in a text from the host: the letter of a set between its commas, and the line
// end.
ghost use Rattle.std.specs.Prelude.{◌≡◌};
ghost use Rattle.plan_texts.specs.Form.Reading.{is_letter, kind_of};
ghost use Rattle.plan_texts.specs.ReaderSays.{Reads, SetReads, EndReads};

// The kind of a row set, as a plan's bytes have it.
const ROW_KIND: u8 = 0;

// The kind of a diagonal set.
const DIAGONAL_KIND: u8 = 1;

// The kind that a letter names.
fn kind_of(letter: u8) -> Option<u8>
    ensures { Reads (is_letter letter) result (λ kind. kind ≡ kind_of letter) }
{
    match letter {
        b'R' | b'r' => Some(ROW_KIND),
        b'D' | b'd' => Some(DIAGONAL_KIND),
        _ => None,
    }
}

// The kind whose letter is at the front of a text between commas, and what follows these.
pub fn set(text: &[u8]) -> Option<(u8, &[u8])>
    ensures { SetReads text.now result }
{
    let (&letter, rest) = text.strip_prefix(b",")?.split_first()?;
    Some((kind_of(letter)?, rest.strip_prefix(b",")?))
}

// What follows the line end at the front of a text, LF or CR LF.
pub fn line_end(text: &[u8]) -> Option<&[u8]>
    ensures { EndReads text.now result }
{
    text.strip_prefix(b"\n").or(text.strip_prefix(b"\r\n"))
}
