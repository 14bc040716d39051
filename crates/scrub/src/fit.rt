// The test of one disk by the cells of the others: each of its equations holds, which is that the
// equation's survivors XOR to zero. The offsets of an equation's survivors, at most three sets, go
// into one list, so no bytes are kept.
ghost use Rattle.std.specs.Prelude.{◌≡◌, ◌+◌, ◌≤◌, ◌<◌, eqb, length, replicate};
ghost use Rattle.mathematics.specs.Lists.{same};
ghost use Rattle.xor.specs.Parts.{xor_offsets};
ghost use Rattle.xor.specs.Reach.{Reached};
ghost use Rattle.liberation.specs.Scrub.Survivors.{equation_holds, fits};
ghost use Rattle.refusals.specs.StripeOf.{IsStripeOf};

use super::equations::{self, THREE_SETS};
use refusals::Geometry;
use stripe_cells::Offsets;
use xor_is_zero::STRETCH;

// From so many survivors on, stretches are faster.
const MANY_SURVIVORS: usize = 12;

// Is the XOR of the parts of n bytes zero? What is shorter than a stretch goes block by block at
// once, and so do the few parts of an equation of a narrow array: a second pass over a stretch
// takes longer. It repeats `xor_is_zero::is_zero` with its own number: a second caller keeps the
// test by stretches a function, without which a check of short cells takes up to twice as long.
fn is_zero(stripe: &[u8], n: usize, at: &[usize]) -> bool
    requires { (n ≤ length stripe.now) × Reached n (length stripe.now) at.now }
    ensures { result ≡ same (xor_offsets n stripe.now at.now) (replicate n 0) }
{
    if n < STRETCH || at.len() < MANY_SURVIVORS {
        return xor_is_zero::blocks_are_zero(stripe, n, at);
    }
    xor_is_zero::long_is_zero(stripe, n, at)
}

// Does an equation hold: do its survivors XOR to zero? What the list then holds is unspecified.
fn equation_holds(
    geometry: Geometry,
    disk: usize,
    number: usize,
    stripe: &[u8],
    list: &mut Offsets<THREE_SETS>,
) -> bool
    requires stripe_len { IsStripeOf geometry stripe.now }
    requires numbered { (disk < geometry.array.disks + 2) × (number < geometry.array.width) }
    ensures { result ≡ equation_holds geometry.array.width geometry.array.disks geometry.cell_size disk stripe.now number }
{
    equations::list_equation(geometry, disk, number, list);
    is_zero(stripe, geometry.cell_size, list.as_slice())
}

// How many equations of a disk hold, from number `from` on and round, before one does not: the
// width exactly if some clean stripe is alike this one off the disk. The first of them decides most
// often, and no other answer depends on `from`. What the list then holds is unspecified.
pub fn equations_passed(
    geometry: Geometry,
    disk: usize,
    from: usize,
    stripe: &[u8],
    list: &mut Offsets<THREE_SETS>,
) -> usize
    requires stripe_len { IsStripeOf geometry stripe.now }
    requires numbered { (disk < geometry.array.disks + 2) × (from < geometry.array.width) }
    ensures { (result ≤ geometry.array.width) × (eqb result geometry.array.width ≡ fits geometry.array.width geometry.array.disks geometry.cell_size disk stripe.now) }
{
    let width = geometry.array.width;
    for passed in 0..width {
        let number = parity_sets::row_on(geometry.array, from, passed);
        if !equation_holds(geometry, disk, number, stripe, list) {
            return passed;
        }
    }
    width
}

// Is some clean stripe alike this one off the disk?
pub fn disk_fits(geometry: Geometry, disk: usize, stripe: &[u8]) -> bool
    requires { IsStripeOf geometry stripe.now × (disk < geometry.array.disks + 2) }
    ensures { result ≡ fits geometry.array.width geometry.array.disks geometry.cell_size disk stripe.now }
{
    let mut list = Offsets::new();
    equations_passed(geometry, disk, 0, stripe, &mut list) == geometry.array.width
}
