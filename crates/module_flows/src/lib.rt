//! Which ends are reached from the nodes of a graph, where it matters only whether none, one or several are.
//!
//! Nodes are numbers from 0. What is found at a node flows to the nodes that use it until nothing changes, so a ring of nodes costs no
//! more than a chain: each use is followed twice at most.
#![tactic(auto)]

mod flow;
mod found;
mod solve;

pub use found::{Found, found_at};
pub use solve::reached;
