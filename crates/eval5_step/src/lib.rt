//! The run of a script, step by step.
#![tactic(auto)]

mod copies;
mod run5;
mod stage;

pub use es_outside::Step;
pub use program_runs::ProgramRun;
pub use run5::Run5;
pub use stage::Stage;
