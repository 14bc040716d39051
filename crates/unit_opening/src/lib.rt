// A unit opened under its checksums: pieces that are marked as missing, or do not fit, are mended
// from the others, and what was mended is compared.
#![tactic(auto)]

mod opening;

ghost use Rattle.refusals.specs.Refused.{answer_of};
ghost use Rattle.unit_opening.specs.Says.{OpenSays};

use refusals::{Refusal, Shape, check_length};
use unit_sums::Unit;

// Mends the pieces whose marks are not 0 or that have not the checksum that the block has; then the
// marks are 0 for the pieces that fit, 1 for others. Refusals: 1, 13, 2, 25, 5, 24 for a block that
// is not sealed, and 23 where the other pieces do not determine these; a refused call leaves marks
// and cells unchanged.
pub fn open_unit(
    shape: Shape,
    stripes: usize,
    name: &[u8],
    unit: u64,
    block: &[u8],
    marks: &mut [u8],
    cells: &mut [u8],
) -> Result<(), Refusal>
    ensures { OpenSays shape.width shape.disks shape.cell_size stripes name.now unit
        block.now marks.old marks.new cells.old cells.new (answer_of result) }
{
    let unit = Unit::new(shape, stripes, name, unit, block, cells.len())?;
    check_length(marks.len(), unit.block.array.cells())?;
    unit.block.check_guard()?;
    opening::open(unit, marks, cells)
}
