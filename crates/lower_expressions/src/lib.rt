//! Lowers expressions (ECMA-262, 6th edition, 12): what each comes to before its value is taken.
//!
//! Each arm, what is made of one kind of expression, is handed what stands round the node and the walkers of what stands inside it, so
//! none leads back to itself. Chains, `new` and `super`, the lists of literals, and functions, arrows and classes have crates of their
//! own below.
#![tactic(auto)]

mod assignments;
mod choice;
mod expressions;
mod operations;
mod operators;
mod values;

pub use choice::lower_reached;
