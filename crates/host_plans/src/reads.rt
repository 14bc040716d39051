// The read list of any plan that the judge accepts. Nothing here knows of bytes in stripes.
ghost use Rattle.std.specs.Prelude.{◌≡◌, true, not, ◌+◌, ◌*◌, ◌≤◌, eqb, length, IfOk};
ghost use Rattle.mathematics.specs.Choice.{first_of, when};
ghost use Rattle.liberation.specs.Sets.{plan_refusal};
ghost use Rattle.liberation.specs.Plans.{list_of};
ghost use Rattle.liberation.specs.Judging.{accepted, steps_in};
ghost use Rattle.refusals.specs.Refused.{refused};
ghost use Rattle.judge.specs.Verdicts.{plan_answer};
ghost use Rattle.host_plans.specs.PlanListSays.{PlanListSays};

use super::bytes;
use judge::{PlanRefusal, STEP_BYTES};
use refusals::{Answer, Array, Refusal};

// The array of a plan and a list of these many bytes, before any step is looked at. Refusals: 1, 13,
// 3, 5.
fn check_lengths(
    width: usize,
    disks: usize,
    lost: usize,
    plan: usize,
    list: usize,
) -> Result<Array, Refusal>
    ensures refusal { refused result ≡ first_of (plan_refusal width disks lost) (first_of (when (not (eqb plan (3 * width))) 5) (when (not (eqb list (width * (disks + 2)))) 5)) }
    ensures numbers { IfOk result (λ a. (a.width ≡ width) × (a.disks ≡ disks)) }
{
    let array = Array::new(width, disks)?;
    array.check_disk(lost)?;
    refusals::check_length(plan, STEP_BYTES * width)?;
    refusals::check_length(list, array.cells())?;
    Ok(array)
}

// Marks the cells that an accepted plan reads.
fn write_list(array: Array, lost: usize, plan: &[u8], list: &mut [u8])
    requires in_array { (lost ≤ array.disks + 1) × (length plan.now ≡ 3 * array.width) × (length list.old ≡ array.width * (array.disks + 2)) }
    requires plan_value { accepted array.width array.disks lost (steps_in array.width plan.now) ≡ true }
    ensures { list.new ≡ list_of array.width array.disks lost (steps_in array.width plan.now) }
{
    list.fill(0);
    planner::mark_steps(array, lost, bytes::steps_in(array, plan), list);
}

// The read list of a plan, where neither a number nor the judge refuses it.
fn try_list(
    width: usize,
    disks: usize,
    lost: usize,
    plan: &[u8],
    list: &mut [u8],
) -> Result<(), PlanRefusal>
    ensures { PlanListSays width disks lost plan.now list.old list.new (plan_answer result) }
{
    let array = check_lengths(width, disks, lost, plan.len(), list.len())?;
    judge::judged_reads(width, disks, lost, plan)?;
    write_list(array, lost, plan, list);
    Ok(())
}

// The read list of a plan of three bytes a step, a byte for each cell: 1 where the plan reads it.
// Refusals: 1, 13, 3, 5, then 6 to 9 with the step as their place; a refused call leaves the list
// unchanged.
pub fn plan_list(width: usize, disks: usize, lost: usize, plan: &[u8], list: &mut [u8]) -> Answer
    ensures { PlanListSays width disks lost plan.now list.old list.new result }
{
    super::answered(try_list(width, disks, lost, plan, list))
}
