// Two lost disks of a stripe within its limits, rebuilt in place: document 01, "Two lost disks".
// Two data disks, or a parity disk and another, in either order.
ghost use Rattle.std.specs.Prelude.{◌≡◌, ◌+◌, ◌≤◌, ◌<◌};
ghost use Rattle.liberation.specs.TwoDisks.Pairs.{ordered_solved, pair_solved};
ghost use Rattle.refusals.specs.StripeOf.{IsStripeOf};

use super::{data, with_parity};
use refusals::Geometry;
use std::cmp::Ordering;

// Two disks a < b: two data disks, a data disk and P, or Q and another.
fn solve_ordered(geometry: Geometry, a: usize, b: usize, stripe: &mut [u8])
    requires long { IsStripeOf geometry stripe.old }
    requires a_lt_b { (a < b) × (b ≤ geometry.array.disks + 1) }
    ensures { stripe.new ≡ ordered_solved geometry.array.width geometry.array.disks geometry.cell_size a b stripe.old }
{
    match b.cmp(&geometry.array.disks) {
        Ordering::Less => data::solve_data(geometry, a, b, stripe),
        Ordering::Equal => with_parity::with_row_parity(geometry, a, stripe),
        Ordering::Greater => with_parity::with_diagonal_parity(geometry, a, stripe),
    }
}

// Two different disks in either order, of an array that is within its limits.
pub fn solve_pair(geometry: Geometry, first: usize, second: usize, stripe: &mut [u8])
    requires long { IsStripeOf geometry stripe.old }
    requires first_bound { (first ≤ geometry.array.disks + 1) × (second ≤ geometry.array.disks + 1) × (first ≡ second → ⊥) }
    ensures { stripe.new ≡ pair_solved geometry.array.width geometry.array.disks geometry.cell_size first second stripe.old }
{
    solve_ordered(geometry, first.min(second), first.max(second), stripe);
}
