//! What is pending in a run of modules: work that holds what it takes, and a maker for each kind.
#![tactic(auto)]

mod begins;
mod calls;
mod definitions;
mod expressions;
mod functions;
mod holds;
mod lists;
mod patterns;
mod pending;
mod statements;
mod steps;
mod values;

pub use holds::{Holding, Holds, Showing};
pub use pending::Pending;
