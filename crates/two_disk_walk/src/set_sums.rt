// Two lost data disks: the surviving cells of a set, summed into a lost cell. The same of the row
// set and the diagonal set of each of several rows.
ghost use Rattle.std.specs.Prelude.{◌≡◌, ◌⊎◌, ◌<◌, length};
ghost use Rattle.liberation.specs.Sets.{place};
ghost use Rattle.liberation.specs.Stripes.Steps.{cell_step};
ghost use Rattle.liberation.specs.TwoDisksBySums.Sums.{summed, summed_all, start_steps};
ghost use Rattle.parity_sets.specs.ParitySets.{kind_of, number_of};
ghost use Rattle.refusals.specs.StripeOf.{IsStripeOf};

use super::cell::Cell;
use super::lost_pair::LostPair;
use parity_sets::{MAX_COLUMNS, ParitySet};
use stripe_cells::{LostDisks, Offsets};

impl LostPair {
    // A lost cell becomes the XOR of the surviving cells of a set. What the list then holds is
    // unspecified. Inlined, since its callers know the kind of the set.
    #[inline(always)]
    fn sum_set(self, set: ParitySet, cell: Cell, stripe: &mut [u8], list: &mut Offsets<MAX_COLUMNS>)
        requires { IsStripeOf self.geometry stripe.old × (number_of set < self.geometry.array.width) × (cell.row < self.geometry.array.width) × ((cell.disk ≡ self.x) ⊎ (cell.disk ≡ self.y)) }
        ensures { stripe.new ≡ summed self.geometry.array.width self.geometry.array.disks self.geometry.cell_size self.x self.y (cell_step (place self.geometry.array.width cell.row cell.disk) (kind_of set) (number_of set)) stripe.old }
    {
        list.clear();
        list.push_surviving(self.geometry, set, LostDisks::two(self.x, self.y));
        list.gather(stripe, cell.offset(self.geometry), self.geometry.cell_size);
    }

    // The row set and the diagonal set of each of `count` rows, from `first` on, summed into the
    // cells that they give. What the list then holds is unspecified.
    pub fn sum_sets(
        self,
        count: usize,
        first: usize,
        stripe: &mut [u8],
        list: &mut Offsets<MAX_COLUMNS>,
    )
        requires { IsStripeOf self.geometry stripe.old × (first < self.geometry.array.width) }
        ensures { stripe.new ≡ summed_all self.geometry.array.width self.geometry.array.disks self.geometry.cell_size self.x self.y (start_steps count self.geometry.array.width self.x self.y first) stripe.old }
    {
        let Self { x, y, .. } = self;
        let mut row = first;
        for _ in 0..count {
            self.sum_set(ParitySet::Row(row), Cell { row, disk: x }, stripe, list);
            let next = self.crossing(row);
            row = next.row;
            self.sum_set(
                ParitySet::Diagonal(next.number),
                Cell { row, disk: y },
                stripe,
                list,
            );
        }
    }
}
