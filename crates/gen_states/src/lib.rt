//! The bodies of generators become the states of machines.
#![tactic(auto)]

mod pass;
mod walk;

pub use pass::machines;
