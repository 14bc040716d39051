// Marks of cells: the surviving cells of a set marked, and how many of them were not marked before.
ghost use Rattle.std.specs.Prelude.{◌≡◌, [], ◌∷◌, ◌+◌, ◌*◌, ◌≤◌, ◌<◌, length};
ghost use Rattle.liberation.specs.Sets.{surviving_in};
ghost use Rattle.liberation.specs.Plans.{marks_from};
ghost use Rattle.parity_sets.specs.Marks.{Marked};
ghost use Rattle.parity_sets.specs.ParitySets.{cells_of, number_of};

use super::{MAX_CELLS, ParitySet, round};
use refusals::Array;

// Marks for every cell of the widest array, none marked.
pub fn no_marks() -> [u8; MAX_CELLS]
    ensures { result ≡ marks_from 1023 0 [] }
{
    [0; MAX_CELLS]
}

// Marks a cell, unless it is on the lost disk; was it not marked before?
fn mark_cell(array: Array, lost: usize, cell: usize, marks: &mut [u8]) -> u32
    requires { (lost ≤ 32) × (cell < length marks.old) }
    ensures { Marked marks.old marks.new (surviving_in array.width lost (cell ∷ [])) result }
{
    if round::is_on_disk(array, lost, cell) {
        return 0;
    }
    let old = marks[cell];
    marks[cell] = 1;
    u32::from(old == 0)
}

// Marks the surviving cells of a set, and returns how many were not marked before.
pub fn mark_set(array: Array, lost: usize, set: ParitySet, marks: &mut [u8]) -> u32
    requires in_array { (lost ≤ array.disks + 1) × (number_of set < array.width) }
    requires marks_len { length marks.old ≡ array.width * (array.disks + 2) }
    ensures { Marked marks.old marks.new (surviving_in array.width lost (cells_of array.width array.disks set)) result }
{
    let mut fresh = 0;
    for cell in set.cells(array) {
        fresh += mark_cell(array, lost, cell, marks);
    }
    fresh
}
