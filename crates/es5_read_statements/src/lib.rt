//! Reads statements of scripts (ECMA-262, 5.1 edition, 12). What stands one construct deeper is read by readers that are handed in.
#![tactic(auto)]

mod ahead;
mod cases;
mod compound;
mod handlers;
mod inner;
mod iteration;
mod jumps;
mod statements;
mod variables;

pub use statements::statement;
