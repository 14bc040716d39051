// Encoding a stripe, which writes P and Q: by groups of data disks where that is faster, else P as
// one run of bytes and Q diagonal by diagonal.
#![tactic(auto)]

mod disk_group;
mod groups;
mod sets;
mod sums;

ghost use Rattle.std.specs.Prelude.{◌≡◌};
ghost use Rattle.liberation.specs.Stripes.Stripes.{encoded};
ghost use Rattle.refusals.specs.Refused.{answer_of};
ghost use Rattle.refusals.specs.StripeOf.{IsStripeOf};
ghost use Rattle.encode.specs.Says.{EncodeSays};

use refusals::{Geometry, Refusal, Shape};

// From so many data disks on, encoding by groups is faster.
const GROUPED_DISKS: usize = 11;

// And from so many bytes of a stripe on.
const GROUPED_BYTES: usize = 196608;

// Writes P and Q of a stripe. With few data disks, or in a small stripe, the data are still in the
// cache when they are read again, so there groups are no faster. No answer depends on the choice.
fn write_parity(geometry: Geometry, stripe: &mut [u8])
    requires { IsStripeOf geometry stripe.old }
    ensures { stripe.new ≡ encoded geometry.array.width geometry.array.disks geometry.cell_size stripe.old }
{
    let disks = geometry.array.disks;
    if disks >= GROUPED_DISKS && stripe.len() >= GROUPED_BYTES {
        groups::encode_groups(geometry, stripe);
    } else {
        stripe_cells::solve_rows(geometry, disks, stripe);
        stripe_cells::solve_diagonals(geometry, stripe);
    }
}

// Writes P and Q of a stripe. Refusals: 1, 13, 2, 5; a refused call leaves the stripe as it was.
pub fn encode_stripe(shape: Shape, stripe: &mut [u8]) -> Result<(), Refusal>
    ensures { EncodeSays shape.width shape.disks shape.cell_size stripe.old stripe.new (answer_of result) }
{
    let geometry = Geometry::of_stripe(shape, stripe.len())?;
    write_parity(geometry, stripe);
    Ok(())
}
