// The offsets of the cells of a set but those on lost disks, written into slots. Which slot comes next
// is passed on, so it stays in a register; and all is inlined, so where the kind of the set is known,
// only the code of that kind is there. Both show in the time of a rebuild of small cells.
ghost use Rattle.std.specs.Prelude.{◌≡◌, [], ◌∷◌, ◌+◌, ◌≤◌, ◌<◌, length};
ghost use Rattle.liberation.specs.Sets.{place};
ghost use Rattle.parity_sets.specs.ParitySets.{kind_of, number_of};
ghost use Rattle.stripe_cells.specs.Offsets.{scaled, cells_from, Pushed};
ghost use Rattle.stripe_cells.specs.OrdinaryCells.{survivors, ordinary_of};
ghost use Rattle.stripe_cells.specs.SetCells.{extra_in};

use super::{LostDisks, disk_cells};
use parity_sets::ParitySet;
use refusals::Geometry;

// Writes that of a cell into slot `at`, unless the cell is on a lost disk. Returns the next slot.
fn write_cell(
    geometry: Geometry,
    row: usize,
    disk: usize,
    lost: LostDisks,
    at: usize,
    slots: &mut [usize],
) -> usize
    requires cell { (row < geometry.array.width) × (disk ≤ 32) }
    requires room { at < length slots.old }
    ensures { Pushed slots.old slots.new at result (scaled geometry.cell_size (survivors geometry.array.width lost.low lost.high (place geometry.array.width row disk ∷ []))) }
{
    if lost.has(disk) {
        return at;
    }
    slots[at] = (disk * geometry.array.width + row) * geometry.cell_size;
    at + 1
}

// Writes those of a set's cells on the disks below `end` but the lost ones, from slot `at` on: before,
// between and after these, so no test for each cell is needed. Returns the slot after them.
#[inline(always)]
fn write_but(
    geometry: Geometry,
    set: ParitySet,
    end: usize,
    lost: LostDisks,
    at: usize,
    slots: &mut [usize],
) -> usize
    requires numbered { number_of set < geometry.array.width }
    requires disks { end + kind_of set ≤ geometry.array.width + 1 }
    requires room { at + end ≤ length slots.old }
    ensures { Pushed slots.old slots.new at result (scaled geometry.cell_size (survivors geometry.array.width lost.low lost.high (cells_from (kind_of set) end geometry.array.width (number_of set) 0))) }
{
    let low = disk_cells::write_on(geometry, set, 0..lost.low.min(end), at, slots);
    let high = disk_cells::write_on(geometry, set, lost.low + 1..lost.high.min(end), low, slots);
    disk_cells::write_on(geometry, set, lost.high + 1..end, high, slots)
}

// Writes those of a set's ordinary cells but those on lost disks, from slot `at` on, and returns the
// slot after them. A row's parity cell follows its others at the same distance.
#[inline(always)]
pub fn write_ordinary(
    geometry: Geometry,
    set: ParitySet,
    lost: LostDisks,
    at: usize,
    slots: &mut [usize],
) -> usize
    requires numbered { number_of set < geometry.array.width }
    requires room { at + (geometry.array.disks + 1) ≤ length slots.old }
    ensures { Pushed slots.old slots.new at result (scaled geometry.cell_size (survivors geometry.array.width lost.low lost.high (ordinary_of geometry.array.width geometry.array.disks (kind_of set) (number_of set)))) }
{
    let disks = geometry.array.disks;
    match set {
        ParitySet::Row(_) => write_but(geometry, set, disks + 1, lost, at, slots),
        ParitySet::Diagonal(number) => {
            let next = write_but(geometry, set, disks, lost, at, slots);
            write_cell(geometry, number, disks + 1, lost, next, slots)
        }
    }
}

// Writes that of a set's extra cell into slot `at`, unless the set has none or it is on a lost disk.
// Returns the next slot.
#[inline(always)]
pub fn write_extra(
    geometry: Geometry,
    set: ParitySet,
    lost: LostDisks,
    at: usize,
    slots: &mut [usize],
) -> usize
    requires numbered { number_of set < geometry.array.width }
    requires room { at < length slots.old }
    ensures { Pushed slots.old slots.new at result (scaled geometry.cell_size (survivors geometry.array.width lost.low lost.high (extra_in geometry.array.width geometry.array.disks (kind_of set) (number_of set)))) }
{
    let array = geometry.array;
    let ParitySet::Diagonal(number) = set else {
        return at;
    };
    if number == 0 {
        return at;
    }
    let disk = parity_sets::extra_disk(array, number);
    if array.disks <= disk {
        return at;
    }
    write_cell(geometry, array.width - 1 - number, disk, lost, at, slots)
}
