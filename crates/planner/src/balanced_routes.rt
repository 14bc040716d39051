// The routes of the balanced plan for a lost data disk: the rows that are a square above the start
// row take a diagonal. The next square is reached by an addition, (n + 1)² = n² + 2n + 1.
ghost use Rattle.std.specs.Prelude.{◌≡◌, ◌-◌, ◌/◌, ◌<◌};
ghost use Rattle.liberation.specs.BalancedPlan.Balanced.{minus_square, balanced_start, balanced_routes};
ghost use Rattle.planner.specs.RouteRecords.{rows_in};
ghost use Rattle.planner.specs.SquareRoutes.{square_routes};

use super::routes::Routes;
use super::walk;
use refusals::Array;

// 1 if -1 is a square modulo the width, else 0: the first where the width is 1 more than a multiple
// of 4.
fn minus_square(array: Array) -> usize
    ensures { result ≡ minus_square array.width }
{
    usize::from(array.width % 4 == 1)
}

// The row from which the squares are counted.
fn square_start(array: Array, disk: usize) -> usize
    requires { disk < array.width }
    ensures { (result ≡ balanced_start array.width disk) × (result < array.width) }
{
    let before = parity_sets::diagonal_of(array, 1 + minus_square(array), disk);
    parity_sets::half_of(array, before)
}

// The routes with a diagonal in the rows that are the square of 1, 2, .. (width - 1) / 2 above the
// start row.
fn square_routes(array: Array, start: usize) -> Routes
    requires { start < array.width }
    ensures { (result.array ≡ array) × (rows_in result ≡ square_routes array.width ((array.width - 1) / 2) array.width start 0) }
{
    walk::walk_routes(array, start, |taken| 2 * taken + 1)
}

// The routes of the balanced plan.
pub fn balanced_routes(array: Array, disk: usize) -> Routes
    requires { disk < array.width }
    ensures { (result.array ≡ array) × (rows_in result ≡ balanced_routes array.width disk) }
{
    square_routes(array, square_start(array, disk))
}
