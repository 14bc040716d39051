// The plan for one lost disk that relieves a named survivor, with its read count. Nothing here
// knows of bytes in stripes.
ghost use Rattle.std.specs.Prelude.{◌≡◌, ◌+◌, ◌≤◌, ◌<◌, IfOk};
ghost use Rattle.refusals.specs.Refused.{refused};
ghost use Rattle.planner.specs.ReliefPlanSays.{relief_refusal, ReliefGiven, ReliefSays};
ghost use Rattle.planner.specs.PlanResults.{plan_in};

use super::steps::Planned;
use super::{Plan, relief_routes, steps};
use refusals::{Array, Refusal};

// The array of the call. Refusals: 1, 13, 3, 4.
fn check_relief(width: usize, disks: usize, lost: usize, relieved: usize) -> Result<Array, Refusal>
    ensures refusal { refused result ≡ relief_refusal width disks lost relieved }
    ensures numbers { IfOk result (λ a. (a.width ≡ width) × (a.disks ≡ disks) × (lost ≤ disks + 1) × (relieved < disks)) }
{
    let array = Array::with_disk(width, disks, lost)?;
    if disks <= relieved {
        return Err(Refusal::NoSuchDisk);
    }
    if relieved == lost {
        return Err(Refusal::SameDisk);
    }
    Ok(array)
}

// The plan, its reads not counted: for P and Q it is our plan.
fn relief_steps(array: Array, lost: usize, relieved: usize) -> Planned
    requires { (lost ≤ array.disks + 1) × (relieved < array.disks) }
    ensures { ReliefGiven array.width array.disks lost relieved result }
{
    if array.disks <= lost {
        return steps::plan_steps(array, lost);
    }
    let routes = relief_routes::relief_routes(array, lost, relieved);
    steps::by_routes(lost, routes)
}

// The plan with its read count. Refusals: 1, 13, 3, 4.
fn try_relief(width: usize, disks: usize, lost: usize, relieved: usize) -> Result<Plan, Refusal>
    ensures { ReliefSays width disks lost relieved (plan_in result) }
{
    let array = check_relief(width, disks, lost, relieved)?;
    Ok(super::finished(array, lost, relief_steps(array, lost, relieved)))
}

// The plan for a lost disk that asks as little of the relieved data disk as any plan can; for P and
// Q it is our plan. Refusals: 1, 13, 3; 3 for a relieved disk that is no data disk; 4 if it is the
// lost one.
pub fn relief_plan(width: usize, disks: usize, lost: usize, relieved: usize) -> Plan
    ensures { ReliefSays width disks lost relieved result }
{
    Plan::from(try_relief(width, disks, lost, relieved))
}
