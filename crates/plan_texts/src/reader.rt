// A plan as text from the host: the names line, then p lines of values, each line ended by LF or
// CR LF.
ghost use Rattle.std.specs.Prelude.{◌≡◌, ◌≤◌, IfOk};
ghost use Rattle.refusals.specs.Refused.{refused};
ghost use Rattle.plan_texts.specs.Form.Reading.{steps_read, step_bytes};
ghost use Rattle.plan_texts.specs.ReaderSays.{LineReads, LinesRead, ParseSays};
ghost use Rattle.plan_texts.specs.JudgeTextSays.{text_refusal};

use super::{letters, numbers};
use judge::STEP_BYTES;
use refusals::{Array, Refusal};
use text::Buffer;

// The bytes of the largest plan: three for each of 31 steps.
pub const PLAN_BYTES: usize = 31 * STEP_BYTES;

// The step that the line at the front of a text names, and what follows the line.
fn line(text: &[u8]) -> Option<([u8; STEP_BYTES], &[u8])>
    ensures { LineReads text.now result }
{
    let (row, after_row) = numbers::number(text)?;
    let (kind, after_set) = letters::set(after_row)?;
    let (number, after_number) = numbers::number(after_set)?;
    let after_line = letters::line_end(after_number)?;
    Some(([row, kind, number], after_line))
}

// The lines of `width` steps, after which the text has to end.
fn lines(width: usize, text: &[u8]) -> Option<Buffer<PLAN_BYTES>>
    requires { width ≤ 31 }
    ensures { LinesRead width text.now result }
{
    let mut plan = Buffer::new();
    let mut rest = text;
    for _ in 0..width {
        let (step, after) = line(rest)?;
        plan.extend_from_slice(&step);
        rest = after;
    }
    if rest.is_empty() { Some(plan) } else { None }
}

// A whole text as the bytes of a plan of `width` steps.
fn parse(width: usize, text: &[u8]) -> Option<Buffer<PLAN_BYTES>>
    requires { width ≤ 31 }
    ensures { ParseSays width text.now result }
{
    let after_names = text.strip_prefix(b"row,set,number")?;
    lines(width, letters::line_end(after_names)?)
}

// Reads a whole text as the bytes of a plan for an array. Refusal: 22.
pub fn read_plan(array: Array, text: &[u8]) -> Result<Buffer<PLAN_BYTES>, Refusal>
    ensures refusal { refused result ≡ text_refusal array.width text.now }
    ensures plan { IfOk result (λ plan. plan ≡ step_bytes (steps_read array.width text.now)) }
{
    parse(array.width, text).ok_or(Refusal::BadPlanText)
}
