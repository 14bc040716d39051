// Two lost data disks of a stripe within its limits, rebuilt in place by the walk, in the order in
// which it goes through: document 01, "Two lost disks".
ghost use Rattle.std.specs.Prelude.{◌≡◌, ◌-◌, ◌/◌, ◌<◌};
ghost use Rattle.liberation.specs.TwoDisks.Pairs.{comes_to_one, forward, data_solved};
ghost use Rattle.refusals.specs.StripeOf.{IsStripeOf};

use refusals::{Array, Geometry};
use two_disk_walk::LostPair;

// Is 1 among the first (width - 1) / 2 multiples of `gap`?
fn comes_to_one(array: Array, gap: usize) -> bool
    requires { gap < array.width }
    ensures { result ≡ comes_to_one ((array.width - 1) / 2) array.width gap gap }
{
    let mut multiple = gap;
    for _ in 0..(array.width - 1) / 2 {
        if multiple == 1 {
            return true;
        }
        multiple = parity_sets::row_on(array, multiple, gap);
    }
    false
}

// Does the walk go from a to b, a < b?
fn goes_forward(array: Array, a: usize, b: usize) -> bool
    requires { (a < b) × (b < array.width) }
    ensures { result ≡ forward array.width a b }
{
    a != 0 && comes_to_one(array, b - a)
}

// Two data disks a < b, walked in the order in which the walk goes through.
pub fn solve_data(geometry: Geometry, a: usize, b: usize, stripe: &mut [u8])
    requires long { IsStripeOf geometry stripe.old }
    requires a_lt_b { (a < b) × (b < geometry.array.disks) }
    ensures { stripe.new ≡ data_solved geometry.array.width geometry.array.disks geometry.cell_size a b stripe.old }
{
    if goes_forward(geometry.array, a, b) {
        LostPair {
            geometry,
            x: a,
            y: b,
        }
        .walk(stripe);
    } else {
        LostPair {
            geometry,
            x: b,
            y: a,
        }
        .walk(stripe);
    }
}
