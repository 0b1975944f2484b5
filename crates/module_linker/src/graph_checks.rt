//! The checks of a graph of modules: each module is read and checked, in load order, and then each name that one wants of another.

mod building;
mod checking;
mod faults;
mod running;

pub use building::{WritesGraph, written_builds};
pub use checking::checked;
pub use running::run_checked;
