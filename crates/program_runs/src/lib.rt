//! The run of a program by an evaluator, and the loop that talks to its hosts and writes what is seen of it.
#![tactic(auto)]

mod asking;
mod end;
mod finish;
mod host_list;
mod places;
mod program_run;
mod running;
mod telling;
mod turn;

pub use end::RunEnd;
pub use places::Places;
pub use program_run::ProgramRun;
pub use running::{run_out, run_out_with};
