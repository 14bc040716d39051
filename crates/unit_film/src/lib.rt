// The film of a unit, handed out in its order, each piece only if it has the checksum that the
// unit's block has; and where the film of a set is in the film of its units.
#![tactic(auto)]

mod film;
mod pieces;

pub use film::film_bytes;
