//! Whether the run of a linked graph and that of the script that it is compiled to have the same events, and the line that says so.
#![tactic(auto)]

mod comparing;
mod comparison;
mod same;
mod telling;

pub use comparing::compared;
pub use comparison::Comparison;
pub use telling::sample_line;
