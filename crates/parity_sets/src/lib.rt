// The parity sets of the code: their cells one by one, numbers round the width, and marks of the
// cells that a plan reads.
#![tactic(auto)]

mod marks;
mod round;
mod set;

pub use marks::{mark_set, no_marks};
pub use round::{diagonal_of, extra_disk, half_of, is_on_disk, next_row, row_on};
pub use set::{Cells, ParitySet};

// The kind of a row set, as a plan's step has it.
pub const ROW_SET: usize = 0;

// That of a diagonal set; there is no other.
pub const DIAGONAL_SET: usize = 1;

// The largest width, which is also the most data disks.
pub const MAX_WIDTH: usize = 31;

// The most disks, P and Q with them, which is also the most cells of a set.
pub const MAX_COLUMNS: usize = MAX_WIDTH + 2;

// The most cells of a stripe.
pub const MAX_CELLS: usize = MAX_WIDTH * MAX_COLUMNS;
