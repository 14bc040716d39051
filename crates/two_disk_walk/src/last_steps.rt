// The last steps of the walk from sums, over two lost data disks: a lost cell that holds the XOR of
// its set's surviving cells gets the set's other lost cells added.
ghost use Rattle.std.specs.Prelude.{◌≡◌, ◌∷◌, ◌<◌};
ghost use Rattle.liberation.specs.Sets.{place};
ghost use Rattle.liberation.specs.Stripes.Steps.{cell_step};
ghost use Rattle.liberation.specs.TwoDisks.PairSteps.{walk_steps};
ghost use Rattle.liberation.specs.TwoDisksBySums.Sums.{added_all};
ghost use Rattle.refusals.specs.StripeOf.{IsStripeOf};

use super::cell::Cell;
use super::lost_pair::LostPair;
use parity_sets::{MAX_COLUMNS, ParitySet};
use stripe_cells::Offsets;

impl LostPair {
    // The diagonal set and the row set of each of `count` rows after `first`, added into the cells
    // that they give. What the list then holds is unspecified.
    fn add_sets(
        self,
        count: usize,
        first: usize,
        stripe: &mut [u8],
        list: &mut Offsets<MAX_COLUMNS>,
    )
        requires { IsStripeOf self.geometry stripe.old × (first < self.geometry.array.width) }
        ensures { stripe.new ≡ added_all self.geometry.array.width self.geometry.array.disks self.geometry.cell_size self.x self.y (walk_steps count self.geometry.array.width self.x self.y first) stripe.old }
    {
        let Self { x, y, .. } = self;
        let mut row = first;
        for _ in 0..count {
            let next = self.crossing(row);
            row = next.row;
            self.add_set(
                ParitySet::Diagonal(next.number),
                Cell { row, disk: y },
                stripe,
                list,
            );
            self.add_set(ParitySet::Row(row), Cell { row, disk: x }, stripe, list);
        }
    }

    // The walk's last steps: the row set of this row, then the sets of `count` rows after it. What
    // the list then holds is unspecified.
    pub fn add_last(
        self,
        count: usize,
        row: usize,
        stripe: &mut [u8],
        list: &mut Offsets<MAX_COLUMNS>,
    )
        requires { IsStripeOf self.geometry stripe.old × (row < self.geometry.array.width) }
        ensures { stripe.new ≡ added_all self.geometry.array.width self.geometry.array.disks self.geometry.cell_size self.x self.y (cell_step (place self.geometry.array.width row self.x) 0 row ∷ walk_steps count self.geometry.array.width self.x self.y row) stripe.old }
    {
        let disk = self.x;
        self.add_set(ParitySet::Row(row), Cell { row, disk }, stripe, list);
        self.add_sets(count, row, stripe, list);
    }
}
