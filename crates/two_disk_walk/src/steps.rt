// The steps of the walk over two lost data disks: document 01, "Two lost disks". The row of an extra
// cell, where they start, and two functions that call each other, a diagonal step and a row step.
ghost use Rattle.std.specs.Prelude.{◌≡◌, ◌≤◌, ◌<◌};
ghost use Rattle.liberation.specs.Sets.{place, row_set, diagonal_set};
ghost use Rattle.liberation.specs.Plans.{extra_row_on, diagonal_of};
ghost use Rattle.liberation.specs.Stripes.Stripes.{solved};
ghost use Rattle.liberation.specs.TwoDisks.Pairs.{next_row, diagonal_walk, row_walk};
ghost use Rattle.refusals.specs.StripeOf.{IsStripeOf};

use super::lost_pair::LostPair;
use parity_sets::{MAX_COLUMNS, ParitySet};
use refusals::Array;
use stripe_cells::Offsets;

// The row of the extra cell on a data disk that is not disk 0.
pub fn extra_row(array: Array, disk: usize) -> usize
    requires { (1 ≤ disk) × (disk < array.width) }
    ensures { (result ≡ extra_row_on array.width disk) × (result < array.width) }
{
    parity_sets::half_of(array, disk) - 1
}

impl LostPair {
    // The diagonal set through disk x's cell of this row gives a cell of disk y; its row, which comes
    // next. Not inlined, so that the two steps need no memory of their own and take the same frame
    // again. What the list then holds is unspecified.
    #[inline(never)]
    fn solve_diagonal(
        &self,
        row: usize,
        stripe: &mut [u8],
        list: &mut Offsets<MAX_COLUMNS>,
    ) -> usize
        requires { IsStripeOf self.now.geometry stripe.old × (row < self.now.geometry.array.width) }
        ensures row { (result ≡ next_row self.now.geometry.array.width self.now.x self.now.y row) × (result < self.now.geometry.array.width) }
        ensures cell { stripe.new ≡ solved self.now.geometry.cell_size (place self.now.geometry.array.width result self.now.y) (diagonal_set self.now.geometry.array.width self.now.geometry.array.disks (diagonal_of self.now.geometry.array.width self.now.x row)) stripe.old }
    {
        let next = self.crossing(row);
        let set = ParitySet::Diagonal(next.number);
        stripe_cells::solve(self.geometry, set, self.y, next.row, stripe, list);
        next.row
    }

    // The row set gives the row's cell of disk x. Not inlined either. What the list then holds is
    // unspecified.
    #[inline(never)]
    fn solve_row(&self, row: usize, stripe: &mut [u8], list: &mut Offsets<MAX_COLUMNS>)
        requires { IsStripeOf self.now.geometry stripe.old × (row < self.now.geometry.array.width) }
        ensures { stripe.new ≡ solved self.now.geometry.cell_size (place self.now.geometry.array.width row self.now.x) (row_set self.now.geometry.array.width self.now.geometry.array.disks row) stripe.old }
    {
        let set = ParitySet::Row(row);
        stripe_cells::solve(self.geometry, set, self.x, row, stripe, list);
    }

    // While cells are missing: the diagonal set through disk x's cell of this row gives a cell of
    // disk y, whose row comes next. What the list then holds is unspecified.
    #[cycle(diagonal_step_row_step)]
    pub fn diagonal_step(
        &self,
        left: usize,
        row: usize,
        stripe: &mut [u8],
        list: &mut Offsets<MAX_COLUMNS>,
    )
        requires { IsStripeOf self.now.geometry stripe.old × (row < self.now.geometry.array.width) }
        ensures { stripe.new ≡ diagonal_walk left self.now.geometry.array.width self.now.geometry.array.disks self.now.geometry.cell_size self.now.x self.now.y row stripe.old }
    {
        if left == 0 {
            return;
        }
        let next = self.solve_diagonal(row, stripe, list);
        self.row_step(left - 1, next, stripe, list);
    }

    // While cells are missing: the row set gives the row's cell of disk x. What the list then holds
    // is unspecified.
    #[cycle(diagonal_step_row_step)]
    fn row_step(&self, left: usize, row: usize, stripe: &mut [u8], list: &mut Offsets<MAX_COLUMNS>)
        requires { IsStripeOf self.now.geometry stripe.old × (row < self.now.geometry.array.width) }
        ensures { stripe.new ≡ row_walk left self.now.geometry.array.width self.now.geometry.array.disks self.now.geometry.cell_size self.now.x self.now.y row stripe.old }
    {
        if left == 0 {
            return;
        }
        self.solve_row(row, stripe, list);
        self.diagonal_step(left - 1, row, stripe, list);
    }
}
