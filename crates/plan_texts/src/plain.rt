// The calls that write plans as text: an accepted plan in its plain form, a text to its plain form.
ghost use Rattle.std.specs.Prelude.{◌≡◌, not, ◌*◌, eqb, length, IfOk};
ghost use Rattle.mathematics.specs.Choice.{when, first_of};
ghost use Rattle.liberation.specs.Sets.{plan_refusal};
ghost use Rattle.liberation.specs.Judging.{steps_in};
ghost use Rattle.refusals.specs.Refused.{refused};
ghost use Rattle.plan_texts.specs.PlainTextSays.{Writes, WriteSays, PlainSays, written_of};

use super::writer::TEXT_BYTES;
use super::{reader, writer};
use judge::STEP_BYTES;
use refusals::{Answer, Array, Refusal};

// The answer, and the length of the text that was written.
#[repr(C)]
#[derive(Clone, Copy)]
pub struct Written {
    pub answer: Answer,
    pub length: usize,
}

impl From<Result<usize, Answer>> for Written {
    ghost from_gives = { λ r w. w ≡ written_of r };

    fn from(written: Result<usize, Answer>) -> Written {
        match written {
            Ok(length) => Written {
                answer: Answer::accepted(),
                length,
            },
            Err(answer) => Written { answer, length: 0 },
        }
    }
}

// The array of a call that writes into `room` bytes. Refusals: 1, 13, 3, then 5 for other than 263
// bytes.
fn check_room(width: usize, disks: usize, lost: usize, room: usize) -> Result<Array, Refusal>
    ensures refusal { refused result ≡ first_of (plan_refusal width disks lost) (when (not (eqb room 263)) 5) }
    ensures array { IfOk result (λ a. a.width ≡ width) }
{
    let array = Array::new(width, disks)?;
    array.check_disk(lost)?;
    refusals::check_length(room, TEXT_BYTES)?;
    Ok(array)
}

// Writes a plan whose numbers and lengths are right in its plain form, and returns how long this
// is. Refusals: 6 to 9.
fn write_steps(
    width: usize,
    disks: usize,
    lost: usize,
    plan: &[u8],
    out: &mut [u8],
) -> Result<usize, Answer>
    requires { (plan_refusal width disks lost ≡ 0) × (length plan.now ≡ 3 * width) × (length out.old ≡ 263) }
    ensures { Writes 0 width disks lost (steps_in width plan.now) out.old out.new (written_of result) }
{
    let answer = judge::judge_plan(width, disks, lost, plan).answer;
    if !answer.is_accepted() {
        return Err(answer);
    }
    let plain = writer::plain_form(plan);
    let text = plain.as_slice();
    out[..text.len()].copy_from_slice(text);
    Ok(text.len())
}

// What `write_plan` returns, but for the form that C gets.
fn try_write_plan(
    width: usize,
    disks: usize,
    lost: usize,
    plan: &[u8],
    out: &mut [u8],
) -> Result<usize, Answer>
    ensures { WriteSays width disks lost plan.now out.old out.new (written_of result) }
{
    let array = check_room(width, disks, lost, out.len())?;
    refusals::check_length(plan.len(), STEP_BYTES * array.width)?;
    write_steps(width, disks, lost, plan, out)
}

// Writes an accepted plan of three bytes a step in its plain form into the caller's slice of 263
// bytes. Refusals: 1, 13, 3, 5, then 6 to 9.
pub fn write_plan(width: usize, disks: usize, lost: usize, plan: &[u8], out: &mut [u8]) -> Written
    ensures { WriteSays width disks lost plan.now out.old out.new result }
{
    Written::from(try_write_plan(width, disks, lost, plan, out))
}

// What `plain_text` returns, but for the form that C gets.
fn try_plain_text(
    width: usize,
    disks: usize,
    lost: usize,
    text: &[u8],
    out: &mut [u8],
) -> Result<usize, Answer>
    ensures { PlainSays width disks lost text.now out.old out.new (written_of result) }
{
    let array = check_room(width, disks, lost, out.len())?;
    let plan = reader::read_plan(array, text)?;
    write_steps(width, disks, lost, plan.as_slice(), out)
}

// Writes the plain form of the plan that a text names into the caller's slice of 263 bytes.
// Refusals: 1, 13, 3, 5, 22, then 6 to 9.
pub fn plain_text(width: usize, disks: usize, lost: usize, text: &[u8], out: &mut [u8]) -> Written
    ensures { PlainSays width disks lost text.now out.old out.new result }
{
    Written::from(try_plain_text(width, disks, lost, text, out))
}
