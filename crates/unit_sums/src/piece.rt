// One piece compared with the checksum that a block has at its place.
ghost use Rattle.std.specs.Prelude.{◌≡◌};
ghost use Rattle.refusals.specs.Refused.{refused, answer_of};
ghost use Rattle.unit_sums.specs.OnePiece.{row_refusal, FitSays};

use super::block::Block;
use super::unit::unit_geometry;
use refusals::{Refusal, Shape, check_length};

// Is this a row? Refusal: 15.
fn check_row(width: usize, row: usize) -> Result<(), Refusal>
    ensures { refused result ≡ row_refusal width row }
{
    if row < width {
        return Ok(());
    }
    Err(Refusal::NoSuchRow)
}

// Has the piece of row `row` of disk `disk` the checksum that the block has? Refusals: 1, 13, 2, 25,
// 3, 5, 15, and 24 if the block is not sealed or the piece does not fit.
pub fn piece_fits(
    shape: Shape,
    stripes: usize,
    name: &[u8],
    unit: u64,
    block: &[u8],
    disk: usize,
    row: usize,
    piece: &[u8],
) -> Result<(), Refusal>
    ensures { FitSays shape.width shape.disks shape.cell_size stripes name.now unit
        block.now disk row piece.now (answer_of result) }
{
    let geometry = unit_geometry(shape, stripes)?;
    geometry.array.check_disk(disk)?;
    let block = Block::new(geometry.array, name, unit, block)?;
    check_length(piece.len(), geometry.cell_size)?;
    check_row(geometry.array.width, row)?;
    block.check_guard()?;
    if block.is_fit(disk * geometry.array.width + row, piece) {
        return Ok(());
    }
    Err(Refusal::DoesNotFit)
}
