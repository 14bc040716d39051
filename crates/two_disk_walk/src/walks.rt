// The walk over two lost data disks: document 01, "Two lost disks". From sums, or to disk 0 on the
// stripe with the first cell; its steps are below.
ghost use Rattle.std.specs.Prelude.{◌≡◌, ◌-◌, ◌*◌, ◌≤◌};
ghost use Rattle.liberation.specs.Sets.{place, row_set};
ghost use Rattle.liberation.specs.Plans.{extra_row_on};
ghost use Rattle.liberation.specs.Stripes.Stripes.{solved};
ghost use Rattle.liberation.specs.TwoDisks.Pairs.{diagonal_walk};
ghost use Rattle.liberation.specs.TwoDisksBySums.Sums.{sum_walked};
ghost use Rattle.refusals.specs.StripeOf.{IsStripeOf};
ghost use Rattle.two_disk_walk.specs.WalkDisks.{walked_by};

use super::lost_pair::LostPair;
use super::steps;
use parity_sets::ParitySet;
use stripe_cells::Offsets;

impl LostPair {
    // Data disks x and 0 after the first cell: its row's other cell, then the walk over the other
    // rows in two halves, so that it takes half of the stack. The second half begins at row x - 1.
    fn walk_to_zero(self, stripe: &mut [u8])
        requires { IsStripeOf self.geometry stripe.old × (self.y ≡ 0) }
        ensures { stripe.new ≡ diagonal_walk (2 * (self.geometry.array.width - 1)) self.geometry.array.width self.geometry.array.disks self.geometry.cell_size self.x 0 (extra_row_on self.geometry.array.width self.x) (solved self.geometry.cell_size (place self.geometry.array.width (extra_row_on self.geometry.array.width self.x) 0) (row_set self.geometry.array.width self.geometry.array.disks (extra_row_on self.geometry.array.width self.x)) stripe.old) }
    {
        let array = self.geometry.array;
        let row = steps::extra_row(array, self.x);
        let mut list = Offsets::new();
        let set = ParitySet::Row(row);
        stripe_cells::solve(self.geometry, set, 0, row, stripe, &mut list);
        let half = (array.width - 1) / 2;
        self.diagonal_step(2 * half, row, stripe, &mut list);
        self.diagonal_step(2 * half, self.x - 1, stripe, &mut list);
    }

    // Two data disks, y not disk 0: the walk from sums. Its start leaves in half of the rows the
    // sums of their sets' surviving cells, so the walk ends with the first of these rows and the
    // last steps add.
    fn walk_sums(self, stripe: &mut [u8])
        requires { IsStripeOf self.geometry stripe.old × (1 ≤ self.y) }
        ensures { stripe.new ≡ sum_walked self.geometry.array.width self.geometry.array.disks self.geometry.cell_size self.x self.y stripe.old }
    {
        let array = self.geometry.array;
        let row = steps::extra_row(array, self.x);
        let mut list = Offsets::new();
        self.start_sums(stripe, &mut list);
        let set = ParitySet::Row(row);
        stripe_cells::solve(self.geometry, set, self.x, row, stripe, &mut list);
        self.diagonal_step(array.width, row, stripe, &mut list);
        let rows = (array.width - 1) / 2 - 1;
        let from = steps::extra_row(array, self.y);
        self.add_last(rows, from, stripe, &mut list);
    }

    // Two lost data disks: from sums, or to disk 0 from the first cell alone.
    pub fn walk(self, stripe: &mut [u8])
        requires { IsStripeOf self.geometry stripe.old }
        ensures { stripe.new ≡ walked_by self.geometry.array.width self.geometry.array.disks self.geometry.cell_size self.x self.y stripe.old }
    {
        if 0 < self.y {
            self.walk_sums(stripe);
        } else {
            self.start(stripe);
            self.walk_to_zero(stripe);
        }
    }
}
