// Text with no heap: a buffer of a fixed size, to which words, numbers in decimal and the fields of
// a plan's step are appended.
#![tactic(auto)]

mod buffer;

pub use buffer::Buffer;
