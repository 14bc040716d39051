// The balanced plan for one lost disk: its steps, as a rebuild takes them, and with its read count.
// Nothing here knows of bytes in stripes.
ghost use Rattle.std.specs.Prelude.{◌+◌, ◌≤◌};
ghost use Rattle.planner.specs.BalancedStepsSays.{BalancedPlanned};
ghost use Rattle.planner.specs.BalancedPlanSays.{BalancedSays};
ghost use Rattle.planner.specs.PlanResults.{plan_in};

use super::steps::Planned;
use super::{Plan, balanced_routes, steps};
use refusals::{Array, Refusal};

// The balanced plan for a disk: for P and Q it is our plan.
pub fn balanced_steps(array: Array, lost: usize) -> Planned
    requires { lost ≤ array.disks + 1 }
    ensures { BalancedPlanned array.width array.disks lost result }
{
    if array.disks <= lost {
        return steps::plan_steps(array, lost);
    }
    steps::by_routes(lost, balanced_routes::balanced_routes(array, lost))
}

// The balanced plan with its read count. Refusals: 1, 13, 3.
fn try_balanced(width: usize, disks: usize, lost: usize) -> Result<Plan, Refusal>
    ensures { BalancedSays width disks lost (plan_in result) }
{
    let array = Array::with_disk(width, disks, lost)?;
    Ok(super::finished(array, lost, balanced_steps(array, lost)))
}

// The balanced plan for a lost disk: for a data disk it reads as few cells as ours, spread over the
// survivors; for P and Q it is our plan. Refusals: 1, 13, 3.
pub fn balanced_plan(width: usize, disks: usize, lost: usize) -> Plan
    ensures { BalancedSays width disks lost result }
{
    Plan::from(try_balanced(width, disks, lost))
}
