// One step of the rebuild of a lost disk into a lent column: a cell of the disk is the XOR of the
// other cells of a set, the surviving ones in the stripe and another lost one, already rebuilt, in
// the column.
ghost use Rattle.std.specs.Prelude.{◌≡◌, true, [], ◌∷◌, ◌*◌, ◌<◌, length, MatchOption};
ghost use Rattle.mathematics.specs.Lists.{is_in};
ghost use Rattle.liberation.specs.Sets.{place, lost_in};
ghost use Rattle.liberation.specs.Stripes.Stripes.{with_column, without, solved};
ghost use Rattle.parity_sets.specs.ParitySets.{number_of, cells_of};
ghost use Rattle.refusals.specs.StripeOf.{IsStripeOf};

use super::lost_disk::LostDisk;
use parity_sets::{MAX_COLUMNS, ParitySet};
use stripe_cells::{LostDisks, Offsets};

impl LostDisk {
    // The row of the set's other cell on the lost disk, if there is one. Only a diagonal whose extra
    // cell is on that disk has two cells there, the extra one and an ordinary one: a diagonal whose
    // extra cell would be on an absent disk has none, and P and Q have no extra cells.
    fn other_row(self, row: usize, set: ParitySet) -> Option<usize>
        requires { (number_of set < self.geometry.array.width) × (row < self.geometry.array.width) × (is_in row (lost_in self.geometry.array.width self.disk (cells_of self.geometry.array.width self.geometry.array.disks set)) ≡ true) }
        ensures { MatchOption result (without row (lost_in self.geometry.array.width self.disk (cells_of self.geometry.array.width self.geometry.array.disks set)) ≡ []) (λ r. (r < self.geometry.array.width) × (without row (lost_in self.geometry.array.width self.disk (cells_of self.geometry.array.width self.geometry.array.disks set)) ≡ r ∷ [])) }
    {
        let array = self.geometry.array;
        let ParitySet::Diagonal(number) = set else {
            return None;
        };
        if number == 0 || array.disks <= self.disk {
            return None;
        }
        if parity_sets::extra_disk(array, number) != self.disk {
            return None;
        }
        let extra = array.width - 1 - number;
        if extra == row {
            Some(parity_sets::row_on(array, number, self.disk))
        } else {
            Some(extra)
        }
    }

    // One step: the lost disk's cell of this row becomes the XOR of the set's other cells. The
    // surviving ones come from the stripe; another lost one, which an earlier step has rebuilt, from
    // the column. What the list then holds is unspecified.
    pub fn rebuild_cell(
        self,
        row: usize,
        set: ParitySet,
        stripe: &[u8],
        column: &mut [u8],
        list: &mut Offsets<MAX_COLUMNS>,
    )
        requires long { IsStripeOf self.geometry stripe.now × (length column.old ≡ self.geometry.array.width * self.geometry.cell_size) }
        requires cell { (number_of set < self.geometry.array.width) × (row < self.geometry.array.width) × (is_in row (lost_in self.geometry.array.width self.disk (cells_of self.geometry.array.width self.geometry.array.disks set)) ≡ true) }
        ensures { with_column self.geometry.array.width self.geometry.cell_size self.disk column.new stripe.now ≡ solved self.geometry.cell_size (place self.geometry.array.width row self.disk) (cells_of self.geometry.array.width self.geometry.array.disks set) (with_column self.geometry.array.width self.geometry.cell_size self.disk column.old stripe.now) }
    {
        let size = self.geometry.cell_size;
        list.clear();
        list.push_surviving(self.geometry, set, LostDisks::one(self.disk));
        let start = row * size;
        xor::gather(&mut column[start..start + size], stripe, list.as_slice());
        if let Some(other) = self.other_row(row, set) {
            xor_in_place::gather_within(column, start, size, &[start, other * size]);
        }
    }
}
