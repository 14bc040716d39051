// The calls for C and Rust that rebuild lost disks of a stripe.
// Each hands its arguments on to the proved call and promises what that call promises.
#![tactic(auto)]

ghost use Rattle.rebuild_one.specs.RebuildOneSays.{OneSays};
ghost use Rattle.host_plans.specs.RebuildByPlanSays.{ByPlanSays};
ghost use Rattle.rebuild_one.specs.RebuildBalancedSays.{BalancedOneSays};
ghost use Rattle.rebuild_two.specs.Says.{TwoSays};

use refusals::{Answer, Shape};

// Rebuilds one lost disk of a lent stripe into a lent column of p × s bytes.
#[unsafe(no_mangle)]
pub extern "C" fn cuzhaveli_rebuild_one(
    shape: Shape,
    lost: usize,
    stripe: &[u8],
    column: &mut [u8],
) -> Answer
    ensures { OneSays shape.width shape.disks shape.cell_size lost stripe.now column.old column.new result }
{
    rebuild_one::rebuild_one(shape, lost, stripe, column).into()
}

// Rebuilds one lost disk by an accepted plan of 3 × p bytes.
#[unsafe(no_mangle)]
pub extern "C" fn cuzhaveli_rebuild_by_plan(
    shape: Shape,
    lost: usize,
    plan: &[u8],
    stripe: &[u8],
    column: &mut [u8],
) -> Answer
    ensures { ByPlanSays shape.width shape.disks shape.cell_size lost plan.now stripe.now column.old column.new result }
{
    host_plans::rebuild_by_plan(shape, lost, plan, stripe, column)
}

// Rebuilds one lost disk by the balanced plan.
#[unsafe(no_mangle)]
pub extern "C" fn cuzhaveli_rebuild_balanced(
    shape: Shape,
    lost: usize,
    stripe: &[u8],
    column: &mut [u8],
) -> Answer
    ensures { BalancedOneSays shape.width shape.disks shape.cell_size lost stripe.now column.old column.new result }
{
    rebuild_one::rebuild_balanced(shape, lost, stripe, column).into()
}

// Rebuilds two lost disks of a lent stripe in place.
#[unsafe(no_mangle)]
pub extern "C" fn cuzhaveli_rebuild_two(
    shape: Shape,
    first: usize,
    second: usize,
    stripe: &mut [u8],
) -> Answer
    ensures { TwoSays shape.width shape.disks shape.cell_size first second stripe.old stripe.new result }
{
    rebuild_two::rebuild_two(shape, first, second, stripe).into()
}
