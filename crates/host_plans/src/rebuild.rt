// The rebuild of one lost disk by any plan that the judge accepts, from the caller's stripe into the
// caller's column.
ghost use Rattle.std.specs.Prelude.{◌≡◌, true, not, ◌*◌, eqb, length, IfOk};
ghost use Rattle.mathematics.specs.Choice.{first_of, when};
ghost use Rattle.liberation.specs.Sets.{numbers_refusal};
ghost use Rattle.liberation.specs.Judging.{accepted, steps_in};
ghost use Rattle.liberation.specs.Stripes.Stripes.{stripe_long, rebuilt_by};
ghost use Rattle.refusals.specs.Refused.{refused};
ghost use Rattle.refusals.specs.StripeOf.{IsStripeOf};
ghost use Rattle.judge.specs.Verdicts.{plan_answer};
ghost use Rattle.host_plans.specs.RebuildByPlanSays.{ByPlanSays};

use super::bytes;
use judge::{PlanRefusal, STEP_BYTES};
use rebuild_one::LostDisk;
use refusals::{Answer, Refusal, Shape};

// The lost disk of a call with a plan, a stripe and a column of these many bytes, before any step is
// looked at. Refusals: 1, 13, 2, 3, 5.
fn check_call(
    shape: Shape,
    lost: usize,
    plan: usize,
    stripe: usize,
    column: usize,
) -> Result<LostDisk, Refusal>
    ensures refusal { refused result ≡ first_of (numbers_refusal shape.width shape.disks shape.cell_size lost) (first_of (when (not (eqb plan (3 * shape.width))) 5) (first_of (when (not (eqb stripe (stripe_long shape.width shape.disks shape.cell_size))) 5) (when (not (eqb column (shape.width * shape.cell_size))) 5))) }
    ensures numbers { IfOk result (λ l. (l.geometry.array.width ≡ shape.width) × (l.geometry.array.disks ≡ shape.disks) × (l.geometry.cell_size ≡ shape.cell_size) × (l.disk ≡ lost)) }
{
    let disk = LostDisk::new(shape, lost)?;
    refusals::check_length(plan, STEP_BYTES * shape.width)?;
    disk.check_lengths(stripe, column)?;
    Ok(disk)
}

// Follows an accepted plan.
fn plan_column(lost: LostDisk, plan: &[u8], stripe: &[u8], column: &mut [u8])
    requires sized { IsStripeOf lost.geometry stripe.now × (length plan.now ≡ 3 * lost.geometry.array.width) × (length column.old ≡ lost.geometry.array.width * lost.geometry.cell_size) }
    requires plan_value { accepted lost.geometry.array.width lost.geometry.array.disks lost.disk (steps_in lost.geometry.array.width plan.now) ≡ true }
    ensures { column.new ≡ rebuilt_by lost.geometry.array.width lost.geometry.array.disks lost.geometry.cell_size lost.disk (steps_in lost.geometry.array.width plan.now) stripe.now }
{
    let steps = bytes::steps_in(lost.geometry.array, plan);
    lost.follow(steps, stripe, column);
}

// The rebuild by a plan, where neither a number nor the judge refuses it.
fn try_rebuild(
    shape: Shape,
    lost: usize,
    plan: &[u8],
    stripe: &[u8],
    column: &mut [u8],
) -> Result<(), PlanRefusal>
    ensures { ByPlanSays shape.width shape.disks shape.cell_size lost plan.now stripe.now column.old column.new (plan_answer result) }
{
    let disk = check_call(shape, lost, plan.len(), stripe.len(), column.len())?;
    judge::judged_reads(shape.width, shape.disks, lost, plan)?;
    plan_column(disk, plan, stripe, column);
    Ok(())
}

// Rebuilds one lost disk into the column by a plan of three bytes a step. Refusals: 1, 13, 2, 3, 5,
// then 6 to 9 with the step as their place; a refused call leaves the column unchanged.
pub fn rebuild_by_plan(
    shape: Shape,
    lost: usize,
    plan: &[u8],
    stripe: &[u8],
    column: &mut [u8],
) -> Answer
    ensures { ByPlanSays shape.width shape.disks shape.cell_size lost plan.now stripe.now column.old column.new result }
{
    super::answered(try_rebuild(shape, lost, plan, stripe, column))
}
