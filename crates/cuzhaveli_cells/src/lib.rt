// The call for C and Rust that mends missing cells of a stripe.
// It hands its arguments on to the proved call and promises what that call promises.
#![tactic(auto)]

ghost use Rattle.rebuild_cells.specs.Says.{RebuildCellsSays};

use refusals::{Answer, Shape};

// Mends the cells of a lent stripe whose marks, p × (k + 2) bytes, are not 0.
#[unsafe(no_mangle)]
pub extern "C" fn cuzhaveli_rebuild_cells(shape: Shape, missing: &[u8], stripe: &mut [u8]) -> Answer
    ensures { RebuildCellsSays shape.width shape.disks shape.cell_size missing.now stripe.old stripe.new result }
{
    rebuild_cells::rebuild_cells(shape, missing, stripe).into()
}
