// One missing cell of a stripe from the sets that a word names: the cells that occur in them an odd
// number of times are marked, and gathered.
ghost use Rattle.std.specs.Prelude.{◌≡◌, ◌+◌, ◌*◌, ◌<◌, length};
ghost use Rattle.liberation.specs.Stripes.Stripes.{solved};
ghost use Rattle.refusals.specs.StripeOf.{IsStripeOf};
ghost use Rattle.rebuild_cells.specs.Theory.Mending.{named_to, odd_cells};
ghost use Rattle.stripe_cells.specs.Toggled.{toggled_all};

use super::{equations, reduction};
use refusals::{Array, Geometry};

// Toggles the marks of the cells of all sets that the word names.
fn toggle_named(array: Array, word: u64, marks: &mut [u8])
    requires { length marks.old ≡ array.width * (array.disks + 2) }
    ensures { marks.new ≡ toggled_all (named_to (2 * array.width) array.width array.disks word) marks.old }
{
    for number in (0..2 * array.width).rev() {
        if reduction::has_bit(word, number) {
            equations::toggle_set(array, equations::set_numbered(array, number), marks);
        }
    }
}

// A cell becomes the XOR of the other cells that occur an odd number of times in the sets that the
// word names.
pub fn mend_cell(geometry: Geometry, cell: usize, word: u64, stripe: &mut [u8])
    requires { IsStripeOf geometry stripe.old × (cell < geometry.array.width * (geometry.array.disks + 2)) }
    ensures { stripe.new ≡ solved geometry.cell_size cell (odd_cells geometry.array.width geometry.array.disks word) stripe.old }
{
    let mut marks = parity_sets::no_marks();
    let marks = &mut marks[..geometry.array.cells()];
    toggle_named(geometry.array, word, marks);
    marks[cell] = 0;
    stripe_cells::gather_odd(stripe, geometry.cell_size, cell, marks);
}
