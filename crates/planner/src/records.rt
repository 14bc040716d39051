// The steps of a plan in a record of three arrays: those of a data disk by its routes, or all sets
// of one kind for a parity disk.
ghost use Rattle.std.specs.Prelude.{◌≡◌, ℕ, ◌++◌, [], ◌<◌, get_or};
ghost use Rattle.liberation.specs.Plans.{row_steps, diagonal_steps, all_of};
ghost use Rattle.parity_sets.specs.ParitySets.{kind_of, number_of, parity_set};
ghost use Rattle.planner.specs.RouteRecords.{rows_in};
ghost use Rattle.planner.specs.StepRecords.{Holds};
ghost use Rattle.planner.specs.StepLists.{steps_put};

use super::routes::Routes;
use super::step_list::StepList;
use parity_sets::{MAX_WIDTH, ParitySet};
use refusals::Array;

// The steps of a plan, each with its row, its kind and its set number, in 31 places; zeros after
// the last.
#[repr(C)]
#[derive(Clone, Copy)]
pub struct Steps {
    pub rows: [u8; MAX_WIDTH],
    pub kinds: [u8; MAX_WIDTH],
    pub numbers: [u8; MAX_WIDTH],
}

impl Steps {
    // No steps.
    pub fn none() -> Steps
        ensures { Holds [] result }
    {
        Steps {
            rows: [0; MAX_WIDTH],
            kinds: [0; MAX_WIDTH],
            numbers: [0; MAX_WIDTH],
        }
    }

    // The set of the step at a place.
    pub fn set(&self, place: usize) -> ParitySet
        requires { place < 31 }
        ensures { result ≡ parity_set (get_or self.now.kinds place 0) (get_or self.now.numbers place 0) }
    {
        ParitySet::of_step(self.kinds[place], self.numbers[place])
    }
}

// The row-set steps by the routes, rows upward.
fn put_rows(routes: &Routes, list: &mut StepList)
    requires { steps_put list.old ≡ [] }
    ensures { steps_put list.new ≡ row_steps 0 (rows_in routes.now) }
{
    let array = routes.array();
    for row in 0..array.width {
        if !routes.takes_diagonal(row) {
            list.push(row, ParitySet::Row(row));
        }
    }
}

// Then the diagonal steps, rows upward.
fn put_diagonals(routes: &Routes, disk: usize, list: &mut StepList)
    requires { (disk < routes.now.array.width) × (steps_put list.old ≡ row_steps 0 (rows_in routes.now)) }
    ensures { steps_put list.new ≡ row_steps 0 (rows_in routes.now) ++ diagonal_steps routes.now.array.width disk 0 (rows_in routes.now) }
{
    let array = routes.array();
    for row in 0..array.width {
        if routes.takes_diagonal(row) {
            let number = parity_sets::diagonal_of(array, disk, row);
            list.push(row, ParitySet::Diagonal(number));
        }
    }
}

// The steps for a data disk, after its routes.
pub fn data_steps(routes: &Routes, disk: usize) -> Steps
    requires { disk < routes.now.array.width }
    ensures { Holds (row_steps 0 (rows_in routes.now) ++ diagonal_steps routes.now.array.width disk 0 (rows_in routes.now)) result }
{
    let mut list = StepList::new();
    put_rows(routes, &mut list);
    put_diagonals(routes, disk, &mut list);
    list.steps
}

// All sets of one kind, upward.
pub fn all_steps<F: Fn(usize) -> ParitySet>(array: Array, set: F) -> Steps
    requires callable { (n : ℕ) → n < array.width → F.pre set n }
    requires numbered { (n : ℕ) → (s : _) → n < array.width → F.post set n s → number_of s ≡ n }
    ensures { (t : ℕ) → ((n : ℕ) → (s : _) → n < array.width → F.post set n s → kind_of s ≡ t) → Holds (all_of array.width t 0) result }
{
    let mut list = StepList::new();
    for row in 0..array.width {
        list.push(row, set(row));
    }
    list.steps
}
