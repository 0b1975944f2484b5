//! The scopes of blocks become locals of their functions, and what closures of several turns of a loop share becomes cells.
#![tactic(auto)]

mod build;
mod cells;
mod pass;
mod walk;

pub use pass::flatten_scopes;
