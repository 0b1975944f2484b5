//! The names of modules that several parts of a core mention become cells, so that each part can stand in a script of its own.
#![tactic(auto)]

mod cells;
mod foreign;
mod pass;
mod tables;

pub use pass::{share, without_holder};
