// The plan for one lost disk that reads the fewest cells of all that are made here, with its read
// count. Nothing here knows of bytes in stripes.
ghost use Rattle.std.specs.Prelude.{◌≡◌, ◌<◌, ltb};
ghost use Rattle.mathematics.specs.Choice.{pick};
ghost use Rattle.liberation.specs.FewestPlan.Fewest.{fewest_routes};
ghost use Rattle.planner.specs.FewestPlanSays.{Routed, FewestSays};
ghost use Rattle.planner.specs.PlanResults.{plan_in};
ghost use Rattle.planner.specs.RouteRecords.{rows_in};

use super::routes::Routes;
use super::{Plan, balanced_routes, fewest_step, our_routes, relief_routes, steps};
use refusals::{Array, Refusal};

// The plan for a lost data disk by its routes, with its reads counted.
fn counted(lost: usize, routes: Routes) -> Plan
    requires { lost < routes.array.disks }
    ensures { Routed routes.array.width routes.array.disks lost (rows_in routes) result }
{
    super::finished(routes.array(), lost, steps::by_routes(lost, routes))
}

// The second of two plans if it reads fewer cells, else the first.
fn fewer(first: Plan, second: Plan) -> Plan
    ensures { result ≡ pick (ltb second.reads first.reads) second first }
{
    if second.reads < first.reads {
        return second;
    }
    first
}

// The plan for a lost data disk: the progression plan with the best step, ours or the balanced one.
fn fewest_data_plan(array: Array, lost: usize) -> Plan
    requires { lost < array.disks }
    ensures { Routed array.width array.disks lost (fewest_routes array.width array.disks lost) result }
{
    let step = fewest_step::fewest_step(array, lost);
    let best = counted(lost, relief_routes::progression_routes(array, lost, step));
    let ours = counted(lost, our_routes::our_routes(array, lost));
    let even = counted(lost, balanced_routes::balanced_routes(array, lost));
    fewer(fewer(best, ours), even)
}

// The fewest plan. Refusals: 1, 13, 3.
fn try_fewest(width: usize, disks: usize, lost: usize) -> Result<Plan, Refusal>
    ensures { FewestSays width disks lost (plan_in result) }
{
    if disks <= lost {
        return super::try_plan(width, disks, lost);
    }
    let array = Array::with_disk(width, disks, lost)?;
    Ok(fewest_data_plan(array, lost))
}

// The plan for a lost disk that reads no more cells than any other plan made here; for P and Q it
// is our plan. Refusals: 1, 13, 3.
pub fn fewest_plan(width: usize, disks: usize, lost: usize) -> Plan
    ensures { FewestSays width disks lost result }
{
    Plan::from(try_fewest(width, disks, lost))
}
