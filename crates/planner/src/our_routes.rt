// The routes of our plan for a lost data disk. They depend on the width and the disk alone, not on
// the number of data disks.
ghost use Rattle.std.specs.Prelude.{◌≡◌, ◌<◌, get_or};
ghost use Rattle.liberation.specs.Plans.{first_routes, decided, routes};
ghost use Rattle.planner.specs.RouteRecords.{rows_in, Becomes};

use super::routes::{Route, Routes};
use refusals::Array;

// The rows that take a diagonal before any row is decided.
fn first_routes(array: Array, disk: usize) -> Routes
    requires { disk < array.width }
    ensures { (result.array ≡ array) × (rows_in result ≡ first_routes array.width disk) }
{
    let mut routes = Routes::all(array, Route::Undecided);
    routes.take_diagonal(disk);
    if disk != 0 {
        routes.take_diagonal(parity_sets::half_of(array, disk));
    }
    routes
}

// An undecided row takes its row set if its partner is itself or has a diagonal, else a diagonal,
// and its partner the row set.
fn decide(routes: &mut Routes, disk: usize, row: usize)
    requires { (disk < routes.old.array.width) × (row < routes.old.array.width) × (get_or (rows_in routes.old) row 0 ≡ 0) }
    ensures { Becomes routes.old routes.new (decided routes.old.array.width disk row (rows_in routes.old)) }
{
    let array = routes.array();
    let partner = array.width - 1 - parity_sets::diagonal_of(array, disk, row);
    if partner == row || routes.takes_diagonal(partner) {
        routes.take_row(row);
    } else {
        routes.take_diagonal(row);
        routes.take_row(partner);
    }
}

// Rows upward, decided ones skipped, until at least half of the other rows have a diagonal.
pub fn our_routes(array: Array, disk: usize) -> Routes
    requires { disk < array.width }
    ensures { (result.array ≡ array) × (rows_in result ≡ routes array.width disk) }
{
    let half = (array.width - 1) / 2;
    let mut routes = first_routes(array, disk);
    for row in 0..array.width {
        if half <= routes.diagonals() {
            break;
        }
        if routes.is_undecided(row) {
            decide(&mut routes, disk, row);
        }
    }
    routes
}
