// The judge of the steps of a plan, one after another: its read count, or a refusal of a step with
// its place.
ghost use Rattle.std.specs.Prelude.{◌≡◌, [], ◌+◌, ◌*◌, ◌≤◌, length};
ghost use Rattle.liberation.specs.Plans.{marks_from};
ghost use Rattle.judge.specs.JudgeStepsSays.{StepsSay};
ghost use Rattle.judge.specs.Verdicts.{judged_of};

use super::{PlanRefusal, STEP_BYTES, one_step};
use parity_sets::MAX_WIDTH;
use refusals::{Answer, Array};

// The answer, and the read count.
#[repr(C)]
#[derive(Clone, Copy)]
pub struct Judged {
    pub answer: Answer,
    pub reads: u32,
}

impl From<Result<u32, PlanRefusal>> for Judged {
    ghost from_gives = { λ r j. j ≡ judged_of r };

    fn from(judged: Result<u32, PlanRefusal>) -> Judged {
        match judged {
            Ok(reads) => Judged {
                answer: Answer::accepted(),
                reads,
            },
            Err(refused) => Judged {
                answer: Answer::from(refused),
                reads: 0,
            },
        }
    }
}

// Judges the steps in order. `marks` has a byte a cell, none marked, and collects the cells that
// the steps read.
pub fn judge_steps(
    array: Array,
    lost: usize,
    plan: &[u8],
    marks: &mut [u8],
) -> Result<u32, PlanRefusal>
    requires disk { lost ≤ array.disks + 1 }
    requires plan_len { length plan.now ≡ 3 * array.width }
    requires marks_value { marks.old ≡ marks_from (array.width * (array.disks + 2)) 0 [] }
    ensures { StepsSay array.width array.disks lost plan.now (judged_of result) }
{
    let mut rebuilt = [false; MAX_WIDTH];
    let mut reads: u32 = 0;
    for (place, bytes) in plan.chunks_exact(STEP_BYTES).enumerate() {
        let step = match one_step::next_step(array, lost, bytes, rebuilt) {
            Ok(step) => step,
            Err(refusal) => {
                let place = place as u32;
                return Err(PlanRefusal { refusal, place });
            }
        };
        rebuilt[step.row] = true;
        reads += parity_sets::mark_set(array, lost, step.set, marks);
    }
    Ok(reads)
}
