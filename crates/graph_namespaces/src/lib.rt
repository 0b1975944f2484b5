//! The names of the namespace objects of a linked graph (ECMA-262, 6th edition, 9.4.6 and 15.2.1.18).
#![tactic(auto)]

mod asked;
mod entries;
mod hosts;
mod namespaces;
mod reached;

pub use namespaces::namespaces_of;
