//! Makes the nodes of scripts (ECMA-262, 5.1 edition, 11 to 13).
//!
//! What is made is boxed, and each maker is a function out of line: so the readers, which call one another as deep as constructs stand
//! in one another, never have a node on their stack.
#![tactic(auto)]

pub mod expressions;
pub mod lists;
mod optional;
pub mod parts;
mod read;
pub mod statements;

pub use read::{Read, Shape};
