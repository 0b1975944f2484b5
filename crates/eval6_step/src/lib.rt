//! The run of a linked graph of modules, step by step.
#![tactic(auto)]

mod run6;
mod stage;

pub use es_outside::Step;
pub use program_runs::ProgramRun;
pub use run6::Run6;
