//! One step of a run of modules.
#![tactic(auto)]

mod contexts;
mod control;
mod handed;
mod pending;
mod turns;

pub use control::step;
pub use pending::StepWork;
pub use source_moves::{Finish, Move, Moved};
