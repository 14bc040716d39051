// The calls for C and Rust on units of a set under their checksums.
// Each hands its arguments on to the proved call and promises what that call promises.
#![tactic(auto)]

ghost use Rattle.unit_sums.specs.Sealing.{SealSays};
ghost use Rattle.unit_sums.specs.OneBlock.{BlockSays};
ghost use Rattle.unit_sums.specs.OnePiece.{FitSays};
ghost use Rattle.unit_opening.specs.Says.{OpenSays};
ghost use Rattle.unit_film.specs.Says.{FilmBytesSays};

use refusals::{Answer, Shape};

// Writes the checksum block of a unit.
#[unsafe(no_mangle)]
pub extern "C" fn cuzhaveli_seal_unit(
    shape: Shape,
    stripes: usize,
    name: &[u8],
    unit: u64,
    cells: &[u8],
    block: &mut [u8],
) -> Answer
    ensures { SealSays shape.width shape.disks shape.cell_size stripes name.now unit
        cells.now block.old block.new result }
{
    unit_sums::seal_unit(shape, stripes, name, unit, cells, block).into()
}

// Mends the pieces of a unit that are marked or do not fit, and marks those that do not fit then.
#[unsafe(no_mangle)]
pub extern "C" fn cuzhaveli_open_unit(
    shape: Shape,
    stripes: usize,
    name: &[u8],
    unit: u64,
    block: &[u8],
    marks: &mut [u8],
    cells: &mut [u8],
) -> Answer
    ensures { OpenSays shape.width shape.disks shape.cell_size stripes name.now unit
        block.now marks.old marks.new cells.old cells.new result }
{
    unit_opening::open_unit(shape, stripes, name, unit, block, marks, cells).into()
}

// The film of a unit from byte `from` on, if the pieces that it lies in fit.
#[unsafe(no_mangle)]
pub extern "C" fn cuzhaveli_film_bytes(
    shape: Shape,
    stripes: usize,
    name: &[u8],
    unit: u64,
    block: &[u8],
    cells: &[u8],
    from: usize,
    out: &mut [u8],
) -> Answer
    ensures { FilmBytesSays shape.width shape.disks shape.cell_size stripes name.now
        unit block.now cells.now from out.old out.new result }
{
    unit_film::film_bytes(shape, stripes, name, unit, block, cells, from, out).into()
}

// Does the checksum block of a unit end with its guard?
#[unsafe(no_mangle)]
pub extern "C" fn cuzhaveli_block_fits(
    width: usize,
    disks: usize,
    name: &[u8],
    unit: u64,
    block: &[u8],
) -> Answer
    ensures { BlockSays width disks name.now unit block.now result }
{
    unit_sums::block_fits(width, disks, name, unit, block).into()
}

// Has a piece of a unit the checksum that the block has?
#[unsafe(no_mangle)]
pub extern "C" fn cuzhaveli_piece_fits(
    shape: Shape,
    stripes: usize,
    name: &[u8],
    unit: u64,
    block: &[u8],
    disk: usize,
    row: usize,
    piece: &[u8],
) -> Answer
    ensures { FitSays shape.width shape.disks shape.cell_size stripes name.now unit
        block.now disk row piece.now result }
{
    unit_sums::piece_fits(shape, stripes, name, unit, block, disk, row, piece).into()
}
