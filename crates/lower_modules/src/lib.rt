//! The lowering of a linked graph of modules: what stands round the walk over the statements of one module. The walk itself is handed in.
#![tactic(auto)]

mod exports;
mod frames;
mod listed;
mod parts;
mod scope;
mod statements;
mod walkers;
mod whole;

pub use walkers::Walkers;
pub use whole::{Linked, lower};
