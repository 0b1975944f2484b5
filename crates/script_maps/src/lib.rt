//! The source map of a printed script: where in its modules the calls come from that carry their places.
#![tactic(auto)]

mod line;
mod segments;
mod sources;

pub use line::{map_of_marks, with_map};
