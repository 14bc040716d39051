// A data cell of a stripe added to its parity cells: the P cell of its row, the Q cell of its
// diagonal and, where it is an extra cell, of the next one.
ghost use Rattle.std.specs.Prelude.{◌≡◌, ◌+◌, ◌*◌, ◌≤◌, ◌<◌, length};
ghost use Rattle.mathematics.specs.Xor.{xor_l};
ghost use Rattle.liberation.specs.Sets.{place};
ghost use Rattle.liberation.specs.Stripes.Stripes.{cell_at, with_cell};
ghost use Rattle.liberation.specs.Update.Updates.{parity_of, added_from};
ghost use Rattle.refusals.specs.StripeOf.{IsStripeOf};

use super::target::Target;

// The cell at place `to` ^= the cell at place `from`, which is before it.
fn add_cell(size: usize, from: usize, to: usize, stripe: &mut [u8])
    requires { (from < to) × (to * size + size ≤ length stripe.old) }
    ensures { stripe.new ≡ with_cell size to (xor_l (cell_at size stripe.old to) (cell_at size stripe.old from)) stripe.old }
{
    let offset = to * size;
    xor_in_place::gather_within(stripe, offset, size, &[offset, from * size]);
}

// Each parity cell of a data cell ^= the data cell: the P cell of its row, the Q cell of its
// diagonal and, where it is the extra cell of the next one, that one's too.
pub fn add_to_parity(target: Target, stripe: &mut [u8])
    requires { IsStripeOf target.geometry stripe.old }
    ensures { stripe.new ≡ added_from target.geometry.cell_size (place target.geometry.array.width target.row target.disk) (parity_of target.geometry.array.width target.geometry.array.disks target.row target.disk) stripe.old }
{
    let width = target.geometry.array.width;
    let size = target.geometry.cell_size;
    let from = target.place();
    add_cell(size, from, target.row_parity(), stripe);
    let number = target.diagonal();
    let diagonal_parity = (target.geometry.array.disks + 1) * width + number;
    add_cell(size, from, diagonal_parity, stripe);
    if number + 1 == width - 1 - target.row {
        add_cell(size, from, diagonal_parity + 1, stripe);
    }
}
