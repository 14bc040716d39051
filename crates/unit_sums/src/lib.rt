// Units of a set and their checksums: a unit is sealed, which makes its checksum block, and one
// piece is compared with the checksum that a block has for it.
#![tactic(auto)]

mod block;
mod label;
mod piece;
mod sealing;
mod unit;

pub use block::{Block, block_fits};
pub use label::Label;
pub use piece::piece_fits;
pub use sealing::seal_unit;
pub use unit::Unit;
