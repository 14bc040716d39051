// A unit sealed: its checksum block made, the checksum of each piece, then the guard.
ghost use Rattle.std.specs.Prelude.{◌≡◌, ◌+◌, ◌*◌, length, take};
ghost use Rattle.liberation.specs.Stripes.Stripes.{stripe_long};
ghost use Rattle.refusals.specs.Refused.{answer_of};
ghost use Rattle.unit_sums.specs.Sealing.{SealSays};
ghost use Rattle.unit_sums.specs.Sums.{sums_of, block_of, block_long};

use super::block::{SUM_BYTES, block_bytes};
use super::label::Label;
use super::unit::{piece_at, unit_geometry};
use refusals::{Geometry, Refusal, Shape, check_length};

// The checksums of all pieces, into their places of the block.
fn put_sums(geometry: Geometry, label: Label, cells: &[u8], block: &mut [u8])
    requires cells { length cells.now ≡ stripe_long geometry.array.width geometry.array.disks geometry.cell_size }
    requires block { length block.old ≡ block_long geometry.array.width geometry.array.disks }
    ensures { take (geometry.array.width * (geometry.array.disks + 2) * 8) block.new
        ≡ sums_of geometry.array.width geometry.array.disks geometry.cell_size label.entry.name.now label.entry.unit cells.now }
{
    for x in 0..geometry.array.cells() {
        let sum = label.sum_of(geometry.array, x, piece_at(geometry, cells, x));
        let at = x * SUM_BYTES;
        block[at..at + SUM_BYTES].copy_from_slice(&sum.to_le_bytes());
    }
}

// block = the checksum block of the unit.
fn write_block(geometry: Geometry, label: Label, cells: &[u8], block: &mut [u8])
    requires cells { length cells.now ≡ stripe_long geometry.array.width geometry.array.disks geometry.cell_size }
    requires block { length block.old ≡ block_long geometry.array.width geometry.array.disks }
    ensures { block.new ≡ block_of geometry.array.width geometry.array.disks geometry.cell_size label.entry.name.now label.entry.unit cells.now }
{
    put_sums(geometry, label, cells, block);
    let (sums, guard) = block.split_at_mut(geometry.array.cells() * SUM_BYTES);
    guard.copy_from_slice(&label.guard_of(sums).to_le_bytes());
}

// block = the checksum block of the unit. Refusals: 1, 13, 2, 25, 5; a refused call leaves the block
// unchanged.
pub fn seal_unit(
    shape: Shape,
    stripes: usize,
    name: &[u8],
    unit: u64,
    cells: &[u8],
    block: &mut [u8],
) -> Result<(), Refusal>
    ensures { SealSays shape.width shape.disks shape.cell_size stripes name.now unit
        cells.now block.old block.new (answer_of result) }
{
    let geometry = unit_geometry(shape, stripes)?;
    let label = Label::new(name, unit)?;
    check_length(block.len(), block_bytes(geometry.array))?;
    check_length(cells.len(), geometry.stripe_bytes())?;
    write_block(geometry, label, cells, block);
    Ok(())
}
