//! What a linked graph of modules is compiled to.
#![tactic(auto)]

mod compiling;
mod cores;
mod helping;
pub mod lower_trees;
mod writing;

pub use compiling::{Declared, compile};
pub use cores::{order_of, passed};
pub use helping::helpers_of;
