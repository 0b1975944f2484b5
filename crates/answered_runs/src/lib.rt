//! The run of a program whose hosts all answer undefined.
#![tactic(auto)]

mod running;

pub use running::{Answered, run_answered};
