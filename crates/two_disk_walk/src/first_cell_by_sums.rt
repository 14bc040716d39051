// The start of the walk from sums, over two lost data disks of which y is not disk 0: the surviving
// cells of the start's sets are summed into the lost cells that these sets give, and the first cell
// is the XOR of those.
ghost use Rattle.std.specs.Prelude.{◌≡◌, ◌++◌, ◌+◌, ◌*◌, ◌≤◌, ◌<◌, length};
ghost use Rattle.liberation.specs.TwoDisksBySums.Sums.{start_steps, cells_of, sum_started};
ghost use Rattle.refusals.specs.StripeOf.{IsStripeOf};
ghost use Rattle.stripe_cells.specs.Offsets.{scaled};

use super::cell::Cell;
use super::lost_pair::LostPair;
use super::steps;
use parity_sets::MAX_COLUMNS;
use stripe_cells::Offsets;

impl LostPair {
    // Appends the offsets of the cells that the sets of `count` rows give, from `first` on.
    fn push_sums(self, count: usize, first: usize, list: &mut Offsets<MAX_COLUMNS>)
        requires { (first < self.geometry.array.width) × (length list.old + 2 * count ≤ 33) }
        ensures { list.new ≡ list.old ++ scaled self.geometry.cell_size (cells_of (start_steps count self.geometry.array.width self.x self.y first)) }
    {
        let Self { geometry, x, y, .. } = self;
        let mut row = first;
        for _ in 0..count {
            list.push(Cell { row, disk: x }.offset(geometry));
            row = self.crossing(row).row;
            list.push(Cell { row, disk: y }.offset(geometry));
        }
    }

    // The start: the sets of half of the rows, from that of the extra cell on y on, summed into the
    // cells that they give. The first cell, the last of these, becomes the XOR of them all. What
    // the list then holds is unspecified.
    pub fn start_sums(self, stripe: &mut [u8], list: &mut Offsets<MAX_COLUMNS>)
        requires { IsStripeOf self.geometry stripe.old × (1 ≤ self.y) }
        ensures { stripe.new ≡ sum_started self.geometry.array.width self.geometry.array.disks self.geometry.cell_size self.x self.y stripe.old }
    {
        let array = self.geometry.array;
        let count = (array.width - 1) / 2;
        let from = steps::extra_row(array, self.y);
        let row = steps::extra_row(array, self.x);
        let disk = self.y;
        self.sum_sets(count, from, stripe, list);
        list.clear();
        self.push_sums(count, from, list);
        let to = Cell { row, disk }.offset(self.geometry);
        xor_in_place::gather_within(stripe, to, self.geometry.cell_size, list.as_slice());
    }
}
