// A lost parity disk of a stripe within its limits beside another disk, rebuilt in place one after
// the other: document 01, "Two lost disks".
ghost use Rattle.std.specs.Prelude.{◌≡◌, ◌≤◌, ◌<◌};
ghost use Rattle.liberation.specs.Stripes.Stripes.{followed};
ghost use Rattle.liberation.specs.TwoDisks.Pairs.{up_diagonals, with_row_parity, with_diagonal_parity};
ghost use Rattle.refusals.specs.StripeOf.{IsStripeOf};

use parity_sets::ParitySet;
use refusals::Geometry;
use stripe_cells::Offsets;

// All cells of a data disk, rows upward, each by the diagonal set on which it is ordinary.
fn up_diagonals(geometry: Geometry, disk: usize, stripe: &mut [u8])
    requires long { IsStripeOf geometry stripe.old }
    requires disk_lt_disks { disk < geometry.array.disks }
    ensures { stripe.new ≡ followed geometry.array.width geometry.array.disks geometry.cell_size disk (up_diagonals geometry.array.width geometry.array.width disk 0) stripe.old }
{
    let array = geometry.array;
    let mut list = Offsets::new();
    for row in 0..array.width {
        let set = ParitySet::Diagonal(parity_sets::diagonal_of(array, disk, row));
        stripe_cells::solve(geometry, set, disk, row, stripe, &mut list);
    }
}

// A data disk and P: the disk by its diagonals, then P by the row sets.
pub fn with_row_parity(geometry: Geometry, disk: usize, stripe: &mut [u8])
    requires long { IsStripeOf geometry stripe.old }
    requires disk_lt_disks { disk < geometry.array.disks }
    ensures { stripe.new ≡ with_row_parity geometry.array.width geometry.array.disks geometry.cell_size disk stripe.old }
{
    up_diagonals(geometry, disk, stripe);
    stripe_cells::solve_rows(geometry, geometry.array.disks, stripe);
}

// A data disk, or P, and Q: the disk by the row sets, then Q by the diagonal sets.
pub fn with_diagonal_parity(geometry: Geometry, disk: usize, stripe: &mut [u8])
    requires long { IsStripeOf geometry stripe.old }
    requires disk_le_disks { disk ≤ geometry.array.disks }
    ensures { stripe.new ≡ with_diagonal_parity geometry.array.width geometry.array.disks geometry.cell_size disk stripe.old }
{
    stripe_cells::solve_rows(geometry, disk, stripe);
    stripe_cells::solve_diagonals(geometry, stripe);
}
