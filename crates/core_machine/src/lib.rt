//! One step of the small tree's machine.
#![tactic(auto)]

mod contexts;
mod control;
mod frames;

pub use control::step;
pub use core_moves::{CoreRows, Entered, Finish, Move, Moved, StateOf};
