// The calls for C and Rust that write a stripe: P and Q from all data cells, or one data cell and
// the parity that depends on it.
// Each hands its arguments on to the proved call and promises what that call promises.
#![tactic(auto)]

ghost use Rattle.encode.specs.Says.{EncodeSays};
ghost use Rattle.update.specs.Says.{UpdateSays};

use refusals::{Answer, Shape};

// Writes P and Q of a lent stripe.
#[unsafe(no_mangle)]
pub extern "C" fn cuzhaveli_encode_stripe(shape: Shape, stripe: &mut [u8]) -> Answer
    ensures { EncodeSays shape.width shape.disks shape.cell_size stripe.old stripe.new result }
{
    encode::encode_stripe(shape, stripe).into()
}

// Puts a lent cell of s bytes into row `row` of data disk `disk` of a lent stripe, and keeps the
// XOR of every set.
#[unsafe(no_mangle)]
pub extern "C" fn cuzhaveli_update_cell(
    shape: Shape,
    row: usize,
    disk: usize,
    stripe: &mut [u8],
    cell: &[u8],
) -> Answer
    ensures { UpdateSays shape.width shape.disks shape.cell_size row disk stripe.old cell.now stripe.new result }
{
    update::update_cell(shape, row, disk, stripe, cell).into()
}
