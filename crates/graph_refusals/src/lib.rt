//! Why a graph of modules is refused, and the line that says so.
#![tactic(auto)]

mod fault;
mod line;
mod quoted;

pub use fault::{FileFault, GraphFault, PlacedFault, Refusal};
pub use line::push_place;
pub use quoted::{push_quoted, units_of_name};
