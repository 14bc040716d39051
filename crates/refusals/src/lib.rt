// Why calls are refused, the shape of an array, and the tests of the numbers of a call in the order
// of the refusals.
#![tactic(auto)]

mod answer;
mod array;
mod limits;
mod refusal;
mod shape;

pub use answer::Answer;
pub use array::{Array, Geometry};
pub use limits::check_length;
pub use refusal::Refusal;
pub use shape::Shape;
