//! The run of a linked graph of modules: with its hosts asked and its lines written, or with undefined as every answer.
#![tactic(auto)]

mod answering;
mod graph_run;
mod places;
mod running;

pub use answering::graph_answered;
pub use places::GraphPlaces;
pub use program_runs::RunEnd;
pub use running::run_graph;
