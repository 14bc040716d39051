// The offsets of a set's cells on one disk after another.
ghost use Rattle.std.specs.Prelude.{◌≡◌, ◌+◌, ◌-◌, ◌≤◌, ◌<◌, length};
ghost use Rattle.liberation.specs.Sets.{row_from, diagonal_from};
ghost use Rattle.parity_sets.specs.ParitySets.{kind_of, number_of};
ghost use Rattle.stripe_cells.specs.Offsets.{scaled, cells_from, Pushed};

use parity_sets::ParitySet;
use refusals::Geometry;
use std::ops::Range;

// Those of row `number`. From disk to disk the offset goes up by a column, and no more is done here,
// so that several slots are written at once.
fn write_row(geometry: Geometry, number: usize, disk: usize, slots: &mut [usize])
    requires numbered { number < geometry.array.width }
    requires disks { disk + length slots.old ≤ geometry.array.width + 2 }
    ensures { slots.new ≡ scaled geometry.cell_size (row_from (length slots.old) geometry.array.width number disk) }
{
    let column = geometry.column_bytes();
    let mut offset = disk * column + number * geometry.cell_size;
    for slot in slots.iter_mut() {
        *slot = offset;
        offset += column;
    }
}

// The same of diagonal `number`. From disk to disk the row goes up by one and round.
fn write_diagonal(geometry: Geometry, number: usize, disk: usize, slots: &mut [usize])
    requires numbered { number < geometry.array.width }
    requires disks { (0 < length slots.old) × (disk + length slots.old ≤ geometry.array.width + 1) }
    ensures { slots.new ≡ scaled geometry.cell_size (diagonal_from (length slots.old) geometry.array.width number disk) }
{
    let column = geometry.column_bytes();
    let mut top = disk * column;
    let mut row = parity_sets::row_on(geometry.array, number, disk);
    for slot in slots.iter_mut() {
        *slot = top + row * geometry.cell_size;
        top += column;
        row = parity_sets::next_row(geometry.array, row);
    }
}

// Writes the offsets of a set's cells on the disks from `disk` on, one into each slot: data disks,
// and P for a row set.
fn write_cells(geometry: Geometry, set: ParitySet, disk: usize, slots: &mut [usize])
    requires numbered { number_of set < geometry.array.width }
    requires disks { (0 < length slots.old) × (disk + length slots.old + kind_of set ≤ geometry.array.width + 2) }
    ensures { slots.new ≡ scaled geometry.cell_size (cells_from (kind_of set) (length slots.old) geometry.array.width (number_of set) disk) }
{
    match set {
        ParitySet::Row(number) => write_row(geometry, number, disk, slots),
        ParitySet::Diagonal(number) => write_diagonal(geometry, number, disk, slots),
    }
}

// The same on a range of disks, from slot `at` on. Returns the slot after them.
#[inline(always)]
pub fn write_on(
    geometry: Geometry,
    set: ParitySet,
    disks: Range<usize>,
    at: usize,
    slots: &mut [usize],
) -> usize
    requires numbered { number_of set < geometry.array.width }
    requires disks { disks.end + kind_of set ≤ geometry.array.width + 2 }
    requires room { at + (disks.end - disks.start) ≤ length slots.old }
    ensures { Pushed slots.old slots.new at result (scaled geometry.cell_size (cells_from (kind_of set) (disks.end - disks.start) geometry.array.width (number_of set) disks.start)) }
{
    if disks.end <= disks.start {
        return at;
    }
    let end = at + (disks.end - disks.start);
    write_cells(geometry, set, disks.start, &mut slots[at..end]);
    end
}
