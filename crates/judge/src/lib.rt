// The judge of a plan sent by a host: its read count, or a refusal with its place.
#![tactic(auto)]

mod all_steps;
mod one_step;
mod refusal;

ghost use Rattle.std.specs.Prelude.{◌≡◌, not, ◌+◌, ◌*◌, ◌≤◌, eqb, IfOk};
ghost use Rattle.mathematics.specs.Choice.{first_of, when};
ghost use Rattle.liberation.specs.Sets.{plan_refusal};
ghost use Rattle.refusals.specs.Refused.{refused};
ghost use Rattle.judge.specs.JudgeSays.{JudgeSays};
ghost use Rattle.judge.specs.Verdicts.{judged_of};

pub use all_steps::Judged;
pub use refusal::PlanRefusal;
use refusals::{Array, Refusal};

// The bytes of a step in a plan as bytes: row, kind, number.
pub const STEP_BYTES: usize = 3;

// The array of a plan of `long` bytes, before any step is looked at. Refusals: 1, 13, 3, 5.
fn check_form(width: usize, disks: usize, lost: usize, long: usize) -> Result<Array, Refusal>
    ensures refusal { refused result ≡ first_of (plan_refusal width disks lost) (when (not (eqb long (3 * width))) 5) }
    ensures numbers { IfOk result (λ a. (a.width ≡ width) × (a.disks ≡ disks) × (lost ≤ disks + 1) × (long ≡ 3 * width)) }
{
    let array = Array::new(width, disks)?;
    array.check_disk(lost)?;
    refusals::check_length(long, STEP_BYTES * width)?;
    Ok(array)
}

// The read count of a plan of three bytes a step: row, kind, number. Refusals: 1, 13, 3, 5, then 6
// to 9 with the step as their place.
pub fn judged_reads(
    width: usize,
    disks: usize,
    lost: usize,
    plan: &[u8],
) -> Result<u32, PlanRefusal>
    ensures { JudgeSays width disks lost plan.now (judged_of result) }
{
    let array = check_form(width, disks, lost, plan.len())?;
    let mut marks = parity_sets::no_marks();
    all_steps::judge_steps(array, lost, plan, &mut marks[..array.cells()])
}

// Judges a plan: its read count, or its refusal, as C gets it.
pub fn judge_plan(width: usize, disks: usize, lost: usize, plan: &[u8]) -> Judged
    ensures { JudgeSays width disks lost plan.now result }
{
    Judged::from(judged_reads(width, disks, lost, plan))
}
