// The routes of a progression plan for a lost data disk, and of the one that relieves a named
// survivor.
ghost use Rattle.std.specs.Prelude.{◌≡◌, ◌<◌};
ghost use Rattle.liberation.specs.ReliefPlan.Relief.{start_row, progression_routes, relief_routes};
ghost use Rattle.planner.specs.RouteRecords.{rows_in};

use super::routes::Routes;
use super::walk;
use refusals::Array;

// The row before the first with a diagonal: the half of disk - 1, round the width.
fn start_row(array: Array, disk: usize) -> usize
    requires { disk < array.width }
    ensures { (result ≡ start_row array.width disk) × (result < array.width) }
{
    let before = parity_sets::diagonal_of(array, 1, disk);
    parity_sets::half_of(array, before)
}

// The routes of the progression plan with this step: half of the other rows take a diagonal, each a
// step from the one before.
pub fn progression_routes(array: Array, disk: usize, step: usize) -> Routes
    requires { (disk < array.width) × (step < array.width) }
    ensures { (result.array ≡ array) × (rows_in result ≡ progression_routes array.width disk step) }
{
    walk::walk_routes(array, start_row(array, disk), |_| step)
}

// The routes for a lost data disk that relieve another: the step is twice the way from the lost
// disk to it.
pub fn relief_routes(array: Array, disk: usize, relieved: usize) -> Routes
    requires { (disk < array.width) × (relieved < array.width) }
    ensures { (result.array ≡ array) × (rows_in result ≡ relief_routes array.width disk relieved) }
{
    let way = parity_sets::diagonal_of(array, disk, relieved);
    progression_routes(array, disk, parity_sets::row_on(array, way, way))
}
