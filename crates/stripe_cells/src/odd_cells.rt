// The XOR of a list of cells in which cells occur more than once: only those that occur an odd
// number of times need to be read. Their marks are odd, and they are gathered, a list at a time.
ghost use Rattle.std.specs.Prelude.{◌≡◌, [], ◌∷◌, ◌⊎◌, ◌≤◌, ◌<◌, ◌*◌, length};
ghost use Rattle.mathematics.specs.Xor.{xor_l};
ghost use Rattle.stripe_cells.specs.Offsets.{scaled};
ghost use Rattle.xor.specs.Parts.{part, with_part, xor_offsets};
ghost use Rattle.stripe_cells.specs.Toggled.{odd_from};
ghost use Rattle.stripe_cells.specs.Listed.{odd_offsets};
ghost use Rattle.stripe_cells.specs.Gathered.{MarkedStripe};
ghost use Rattle.stripe_cells.specs.OddCells.{OddAdded};

use super::{Offsets, odd_marks};
use parity_sets::MAX_COLUMNS;

// The cell `to` becomes the XOR of the cells in the list, which is itself or none, and of the odd
// cells from `from` on, as far as a list of `most` offsets goes; the first place that was not looked
// at.
fn gather_list(
    stripe: &mut [u8],
    size: usize,
    to: usize,
    marks: &[u8],
    from: usize,
    most: usize,
    list: &mut Offsets<MAX_COLUMNS>,
) -> usize
    requires marked { MarkedStripe size to marks.now stripe.old × (from ≤ length marks.now) }
    requires room { (1 < most) × (most ≤ 33) }
    requires own { (list.old ≡ []) ⊎ (list.old ≡ to * size ∷ []) }
    ensures { OddAdded size to marks.now stripe.old stripe.new list.old from result }
{
    let next = odd_marks::push_odd(marks, size, from, most, list);
    xor_in_place::gather_within(stripe, to * size, size, list.as_slice());
    next
}

// The cell `to` ^= the odd cells from `from` on, list by list; the cell itself is in front of each
// list.
fn add_odd(
    stripe: &mut [u8],
    size: usize,
    to: usize,
    marks: &[u8],
    from: usize,
    most: usize,
    list: &mut Offsets<MAX_COLUMNS>,
)
    requires { MarkedStripe size to marks.now stripe.old × (from ≤ length marks.now) × (1 < most) × (most ≤ 33) }
    ensures { stripe.new ≡ with_part size (to * size) (xor_l (part size (to * size) stripe.old) (xor_offsets size stripe.old (odd_offsets size marks.now from))) stripe.old }
{
    let mut next = from;
    while next < marks.len() {
        list.clear();
        list.push(to * size);
        next = gather_list(stripe, size, to, marks, next, most, list);
    }
}

// The cell `to` becomes the XOR of the odd cells.
pub fn gather_odd(stripe: &mut [u8], size: usize, to: usize, marks: &[u8])
    requires { MarkedStripe size to marks.now stripe.old }
    ensures { stripe.new ≡ with_part size (to * size) (xor_offsets size stripe.old (scaled size (odd_from 0 marks.now))) stripe.old }
{
    let most = xor::list_most(size);
    let mut list = Offsets::new();
    let next = gather_list(stripe, size, to, marks, 0, most, &mut list);
    add_odd(stripe, size, to, marks, next, most, &mut list);
}
