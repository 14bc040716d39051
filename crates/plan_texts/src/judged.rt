// The judge of a plan that is a text from the host.
ghost use Rattle.std.specs.Prelude.{◌≡◌, IfOk};
ghost use Rattle.refusals.specs.Refused.{refused};
ghost use Rattle.plan_texts.specs.Form.Reading.{steps_read, step_bytes};
ghost use Rattle.plan_texts.specs.JudgeTextSays.{judge_first, JudgeTextSays};

use super::reader;
use super::reader::PLAN_BYTES;
use judge::Judged;
use refusals::{Answer, Array, Refusal};
use text::Buffer;

// The bytes of the plan that a text names, before the judge looks at it. Refusals: 1, 13, 3, 22.
fn checked_plan(
    width: usize,
    disks: usize,
    lost: usize,
    text: &[u8],
) -> Result<Buffer<PLAN_BYTES>, Refusal>
    ensures refusal { refused result ≡ judge_first width disks lost text.now }
    ensures plan { IfOk result (λ plan. plan ≡ step_bytes (steps_read width text.now)) }
{
    let array = Array::new(width, disks)?;
    array.check_disk(lost)?;
    reader::read_plan(array, text)
}

// Judges a plan that is a text. Refusals: 1, 13, 3, 22, then 6 to 9 with the step as their place.
pub fn judge_text(width: usize, disks: usize, lost: usize, text: &[u8]) -> Judged
    ensures { JudgeTextSays width disks lost text.now result }
{
    match checked_plan(width, disks, lost, text) {
        Ok(plan) => judge::judge_plan(width, disks, lost, plan.as_slice()),
        Err(refusal) => Judged {
            answer: Answer::from(refusal),
            reads: 0,
        },
    }
}
