// A plan for one lost data disk by its routes, whatever rule chose them, and our plan for any disk.
// The reads are not counted: the steps and the routes, as a rebuild takes them.
ghost use Rattle.std.specs.Prelude.{◌≡◌, ◌+◌, ◌≤◌, ◌<◌};
ghost use Rattle.planner.specs.PlanStepsSays.{ByRoutes, OurPlan};
ghost use Rattle.planner.specs.RouteRecords.{rows_in};

use super::our_routes;
use super::records::{self, Steps};
use super::routes::Routes;
use parity_sets::ParitySet;
use refusals::Array;

// A plan whose reads are not counted, a bit for each row that takes a diagonal beside the steps: a
// rebuild needs no count.
#[derive(Clone, Copy)]
pub struct Planned {
    pub steps: Steps,
    pub routes: u32,
}

// The plan for a lost data disk by its routes: all plans for one are made here.
pub fn by_routes(lost: usize, routes: Routes) -> Planned
    requires { lost < routes.array.width }
    ensures { ByRoutes routes.array.width lost (rows_in routes) result }
{
    Planned {
        steps: records::data_steps(&routes, lost),
        routes: routes.word(),
    }
}

// Our plan for a disk.
pub fn plan_steps(array: Array, lost: usize) -> Planned
    requires { lost ≤ array.disks + 1 }
    ensures { OurPlan array.width array.disks lost result }
{
    if lost < array.disks {
        return by_routes(lost, our_routes::our_routes(array, lost));
    }
    if lost == array.disks {
        return Planned {
            steps: records::all_steps(array, |row| ParitySet::Row(row)),
            routes: 0,
        };
    }
    Planned {
        steps: records::all_steps(array, |row| ParitySet::Diagonal(row)),
        routes: (1 << array.width) - 1,
    }
}
