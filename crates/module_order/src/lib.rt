//! The order in which the modules of a graph are evaluated: depth first, a module behind those that it requests.
//!
//! The time is linear in the requests.
#![tactic(auto)]

mod order;
mod walk;

pub use order::evaluation_order;
