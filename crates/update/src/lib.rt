// Updating one data cell of a stripe, with its row parity and its diagonal parity. The cell itself
// holds the change while that is added to the parity cells, so no other memory is needed.
#![tactic(auto)]

mod parity;
mod target;

ghost use Rattle.std.specs.Prelude.{◌≡◌, length, IfOk};
ghost use Rattle.liberation.specs.Stripes.Stripes.{stripe_long};
ghost use Rattle.liberation.specs.Update.Updates.{updated};
ghost use Rattle.refusals.specs.Refused.{refused, answer_of};
ghost use Rattle.refusals.specs.StripeOf.{IsStripeOf};
ghost use Rattle.update.specs.Says.{update_lengths_refusal, UpdateSays};
ghost use Rattle.update.specs.Targets.{IsTarget};

use refusals::{Geometry, Refusal, Shape};
use target::Target;

// dst = src, byte by byte: the library's `copy_from_slice` calls memmove here, and the archive asks no
// more of C than memcpy and memset.
fn copy(dst: &mut [u8], src: &[u8])
    requires { length src.now ≡ length dst.old }
    ensures { dst.new ≡ src.now }
{
    for (i, byte) in dst.iter_mut().enumerate() {
        *byte = src[i];
    }
}

// The new bytes of a data cell, with its parity cells: the cell takes the change, hands it on, then
// takes the new bytes.
fn put_cell(target: Target, stripe: &mut [u8], cell: &[u8])
    requires { IsStripeOf target.geometry stripe.old × (length cell.now ≡ target.geometry.cell_size) }
    ensures { stripe.new ≡ updated target.geometry.array.width target.geometry.array.disks target.geometry.cell_size target.row target.disk cell.now stripe.old }
{
    let start = target.place() * target.geometry.cell_size;
    let end = start + target.geometry.cell_size;
    xor::add_one(&mut stripe[start..end], cell, 0);
    parity::add_to_parity(target, stripe);
    copy(&mut stripe[start..end], cell);
}

// The data cell of a call on a stripe and a cell of these many bytes. P and Q hold no data.
// Refusals: 1, 13, 2, 3, 5, 15.
fn find_target(
    shape: Shape,
    row: usize,
    disk: usize,
    stripe: usize,
    cell: usize,
) -> Result<Target, Refusal>
    ensures refusal { refused result ≡ update_lengths_refusal shape.width shape.disks shape.cell_size row disk stripe cell }
    ensures target { IfOk result (λ t. IsTarget shape row disk stripe cell t) }
{
    let geometry = Geometry::new(shape)?;
    if geometry.array.disks <= disk {
        return Err(Refusal::NoSuchDisk);
    }
    refusals::check_length(stripe, geometry.stripe_bytes())?;
    refusals::check_length(cell, geometry.cell_size)?;
    if geometry.array.width <= row {
        return Err(Refusal::NoSuchRow);
    }
    Ok(Target {
        geometry,
        row,
        disk,
    })
}

// Puts new bytes into a data cell and keeps the XOR of every set. Refusals: 1, 13, 2, 3, 5, 15; a
// refused call leaves the stripe as it was.
pub fn update_cell(
    shape: Shape,
    row: usize,
    disk: usize,
    stripe: &mut [u8],
    cell: &[u8],
) -> Result<(), Refusal>
    ensures { UpdateSays shape.width shape.disks shape.cell_size row disk stripe.old cell.now stripe.new (answer_of result) }
{
    let target = find_target(shape, row, disk, stripe.len(), cell.len())?;
    put_cell(target, stripe, cell);
    Ok(())
}
