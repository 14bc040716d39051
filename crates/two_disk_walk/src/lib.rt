// The walk over two lost data disks: its first cell, its diagonal and row steps, and the walk from
// sums.
#![tactic(auto)]

mod cell;
mod first_cell;
mod first_cell_by_sums;
mod last_steps;
mod lost_cells;
mod lost_pair;
mod set_sums;
mod steps;
mod walks;

pub use lost_pair::LostPair;
