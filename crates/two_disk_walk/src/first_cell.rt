// The first cell of the walk to disk 0 over two lost data disks: document 01, "Two lost disks".
// Marks are toggled along all sets together, and the cells that occur an odd number of times are
// gathered.
ghost use Rattle.std.specs.Prelude.{◌≡◌, ◌+◌, ◌*◌, ◌<◌, length};
ghost use Rattle.liberation.specs.TwoDisks.Pairs.{start_sets, started};
ghost use Rattle.parity_sets.specs.ParitySets.{number_of, cells_of};
ghost use Rattle.refusals.specs.StripeOf.{IsStripeOf};
ghost use Rattle.stripe_cells.specs.Toggled.{toggled_all};
ghost use Rattle.stripe_cells.specs.OrdinaryCells.{survivors};

use super::cell::Cell;
use super::lost_pair::LostPair;
use super::steps;
use parity_sets::{MAX_COLUMNS, ParitySet};
use refusals::{Array, Geometry};
use stripe_cells::{LostDisks, Offsets};

// The marks of a set's cells on neither disk x nor disk 0 are toggled. Cells of one byte have their
// places as offsets. What the list then holds is unspecified.
fn toggle_set(
    array: Array,
    x: usize,
    set: ParitySet,
    marks: &mut [u8],
    list: &mut Offsets<MAX_COLUMNS>,
)
    requires { (number_of set < array.width) × (x < array.disks) × (length marks.old ≡ array.width * (array.disks + 2)) }
    ensures { marks.new ≡ toggled_all (survivors array.width x 0 (cells_of array.width array.disks set)) marks.old }
{
    let places = Geometry {
        array,
        cell_size: 1,
    };
    list.clear();
    list.push_surviving(places, set, LostDisks::two(x, 0));
    stripe_cells::toggle_all(marks, list.as_slice());
}

// The marks of the surviving cells of the row set and the diagonal set of each row, from `first` on,
// are toggled. The diagonal through disk x's cell of a row has the number of the next row, since
// that is the row of its cell on disk 0. What the list then holds is unspecified.
fn toggle_sets(
    array: Array,
    x: usize,
    first: usize,
    marks: &mut [u8],
    list: &mut Offsets<MAX_COLUMNS>,
)
    requires { (first < array.width) × (x < array.disks) × (length marks.old ≡ array.width * (array.disks + 2)) }
    ensures { marks.new ≡ toggled_all (survivors array.width x 0 (start_sets array.width array.width array.disks x 0 first)) marks.old }
{
    let mut row = first;
    for _ in 0..array.width {
        toggle_set(array, x, ParitySet::Row(row), marks, list);
        row = parity_sets::diagonal_of(array, x, row);
        toggle_set(array, x, ParitySet::Diagonal(row), marks, list);
    }
}

impl LostPair {
    // The first cell of the walk to disk 0: the XOR of the surviving cells of all sets together. A
    // cell that occurs an even number of times in them is left out.
    pub fn start(self, stripe: &mut [u8])
        requires { IsStripeOf self.geometry stripe.old × (self.y ≡ 0) }
        ensures { stripe.new ≡ started self.geometry.array.width self.geometry.array.disks self.geometry.cell_size self.x 0 stripe.old }
    {
        let Geometry {
            array,
            cell_size,
            ..
        } = self.geometry;
        let row = steps::extra_row(array, self.x);
        let disk = self.x;
        let mut all = parity_sets::no_marks();
        let marks = &mut all[..array.cells()];
        let mut list = Offsets::new();
        toggle_sets(array, self.x, row, marks, &mut list);
        let to = Cell { row, disk }.place(array);
        stripe_cells::gather_odd(stripe, cell_size, to, marks);
    }
}
