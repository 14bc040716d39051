// A host's plan as a text: its form, read, judged, and written in its one plain form.
#![tactic(auto)]

mod judged;
mod letters;
mod numbers;
mod plain;
mod reader;
mod writer;

pub use judged::judge_text;
pub use plain::{Written, plain_text, write_plan};
