// Routes with a diagonal in the rows that a walk comes to. Row follows row by an addition, with the
// width subtracted where it is reached.
ghost use Rattle.std.specs.Prelude.{◌≡◌, ℕ, ◌-◌, ◌/◌, ◌≤◌, ◌<◌};
ghost use Rattle.planner.specs.RouteRecords.{rows_in};
ghost use Rattle.planner.specs.Walks.{walked};

use super::routes::{Route, Routes};
use refusals::Array;

// Half of the other rows take a diagonal, each so many rows above the one before, the first above
// `start`, as `step` has it for the number of rows that have one already.
pub fn walk_routes<F: Fn(usize) -> usize>(array: Array, start: usize, step: F) -> Routes
    requires start { start < array.width }
    requires callable { (n : ℕ) → n < (array.width - 1) / 2 → F.pre step n }
    requires short { (n x : ℕ) → n < (array.width - 1) / 2 → F.post step n x → x ≤ array.width }
    ensures array { result.array ≡ array }
    ensures rows { (g : ℕ → ℕ) → ((n x : ℕ) → n < (array.width - 1) / 2 → F.post step n x → x ≡ g n) → rows_in result ≡ walked array.width start g ((array.width - 1) / 2) }
{
    let mut routes = Routes::all(array, Route::Row);
    let mut row = start;
    for taken in 0..(array.width - 1) / 2 {
        row = parity_sets::row_on(array, row, step(taken));
        routes.take_diagonal(row);
    }
    routes
}
