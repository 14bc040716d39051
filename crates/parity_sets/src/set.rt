// The parity sets of the code, and their cells one after another.
ghost use Rattle.std.specs.Prelude.{◌≡◌, ◌+◌, ◌%◌, ◌<◌, ◌≤◌, length, get_or, MatchOption};
ghost use Rattle.std.specs.Iterator.{YieldsFirst, item_count};
ghost use Rattle.parity_sets.specs.ParitySets.{cells_of, number_of, kind_of, parity_set};

use super::round;
use refusals::Array;

// A row set or a diagonal set, and its number.
#[derive(Clone, Copy, Debug, PartialEq, Eq)]
pub enum ParitySet {
    Row(usize),
    Diagonal(usize),
}

impl ParitySet {
    ghost use Rattle.parity_sets.specs.CellsLeft.{cells_left};

    // The set of this kind, as a plan's step has it: 0 for a row set, else a diagonal set.
    pub fn of_step(kind: u8, number: u8) -> ParitySet
        ensures { result ≡ parity_set kind number }
    {
        match kind {
            0 => ParitySet::Row(usize::from(number)),
            _ => ParitySet::Diagonal(usize::from(number)),
        }
    }

    // Its cell at a place of its list, if the list goes on to it: data disks upward, the parity
    // cell, the extra cell. `row` is the row of a diagonal's cell on data disk `at`.
    fn cell(self, array: Array, at: usize, row: usize) -> Option<usize>
        requires in_array { number_of self < array.width }
        requires row_is { row ≡ (number_of self + at) % array.width }
        ensures { MatchOption result (length (cells_of array.width array.disks self) ≤ at) (λ x. (at < length (cells_of array.width array.disks self)) × (x ≡ get_or (cells_of array.width array.disks self) at 0)) }
    {
        let width = array.width;
        let disks = array.disks;
        match self {
            ParitySet::Row(number) if at <= disks => Some(at * width + number),
            ParitySet::Diagonal(_) if at < disks => Some(at * width + row),
            ParitySet::Diagonal(number) if at == disks => Some((disks + 1) * width + number),
            ParitySet::Diagonal(number) if at == disks + 1 => {
                let disk = round::extra_disk(array, number);
                if disk < disks {
                    Some(disk * width + (width - 1 - number))
                } else {
                    None
                }
            }
            _ => None,
        }
    }

    // Its cells, one after another.
    pub fn cells(self, array: Array) -> Cells
        requires { number_of self < array.width }
        ensures { cells_left result ≡ cells_of array.width array.disks self }
    {
        let (ParitySet::Row(number) | ParitySet::Diagonal(number)) = self;
        Cells {
            array,
            set: self,
            at: 0,
            row: number,
        }
    }
}

// The cells of a set from one of them on. `row` is the row of a diagonal's cell on data disk `at`,
// so no remainder is taken from cell to cell.
#[derive(Clone, Copy)]
pub struct Cells {
    array: Array,
    set: ParitySet,
    at: usize,
    row: usize,
    ghost numbered: { number_of set < array.width },
    ghost row_is: { row ≡ (number_of set + at) % array.width },
}

impl Iterator for Cells {
    ghost use Rattle.parity_sets.specs.CellsLeft.{cells_left};

    type Item = usize;

    ghost next_gives = { YieldsFirst cells_left };

    ghost remaining = { item_count cells_left };

    fn next(&mut self) -> Option<usize> {
        let cell = self.set.cell(self.array, self.at, self.row)?;
        self.row = round::next_row(self.array, self.row);
        self.at += 1;
        Some(cell)
    }
}
