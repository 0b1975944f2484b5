//! Yields become statements, and the statements that stand in expressions stand before these.
#![tactic(auto)]

mod pass;
mod walk;

pub use pass::flatten_yields;
