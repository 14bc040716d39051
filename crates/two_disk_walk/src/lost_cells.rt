// Two lost data disks: a lost cell becomes the XOR of the lost cells of a set, of which it is one.
ghost use Rattle.std.specs.Prelude.{◌≡◌, ◌++◌, ◌≤◌, ◌<◌, length};
ghost use Rattle.liberation.specs.Sets.{place, lost_in};
ghost use Rattle.liberation.specs.Stripes.Steps.{cell_step};
ghost use Rattle.liberation.specs.TwoDisksBySums.Sums.{placed, sum_added};
ghost use Rattle.parity_sets.specs.ParitySets.{kind_of, number_of, cells_of};
ghost use Rattle.refusals.specs.StripeOf.{IsStripeOf};
ghost use Rattle.stripe_cells.specs.Offsets.{scaled};

use super::cell::Cell;
use super::lost_pair::LostPair;
use parity_sets::{MAX_COLUMNS, ParitySet};
use refusals::Geometry;
use stripe_cells::Offsets;

// Appends the offsets of a set's cells on a lost disk.
fn push_lost(geometry: Geometry, set: ParitySet, disk: usize, list: &mut Offsets<MAX_COLUMNS>)
    requires { (number_of set < geometry.array.width) × (disk < geometry.array.disks) × (length list.old ≤ 2) }
    ensures { list.new ≡ list.old ++ scaled geometry.cell_size (placed geometry.array.width disk (lost_in geometry.array.width disk (cells_of geometry.array.width geometry.array.disks set))) }
{
    list.push_on(geometry, set, disk..disk + 1);
    let ParitySet::Diagonal(number) = set else {
        return;
    };
    if number != 0 && parity_sets::extra_disk(geometry.array, number) == disk {
        let row = geometry.array.width - 1 - number;
        list.push(Cell { row, disk }.offset(geometry));
    }
}

impl LostPair {
    // A lost cell becomes the XOR of the lost cells of a set, of which it is one. What the list
    // then holds is unspecified.
    pub fn add_set(
        self,
        set: ParitySet,
        cell: Cell,
        stripe: &mut [u8],
        list: &mut Offsets<MAX_COLUMNS>,
    )
        requires { IsStripeOf self.geometry stripe.old × (number_of set < self.geometry.array.width) × (cell.row < self.geometry.array.width) × (cell.disk < self.geometry.array.disks) }
        ensures { stripe.new ≡ sum_added self.geometry.array.width self.geometry.array.disks self.geometry.cell_size self.x self.y (cell_step (place self.geometry.array.width cell.row cell.disk) (kind_of set) (number_of set)) stripe.old }
    {
        list.clear();
        push_lost(self.geometry, set, self.x, list);
        push_lost(self.geometry, set, self.y, list);
        let to = cell.offset(self.geometry);
        xor_in_place::gather_within(stripe, to, self.geometry.cell_size, list.as_slice());
    }
}
