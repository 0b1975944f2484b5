//! Reads statements and declarations (ECMA-262, 6th edition, 13, 14).
//!
//! Statements hold expressions and statements one construct deeper. Each reader here is given the readers of these, as they read where
//! at most so many constructs may still open as at the reader. So no reader leads back to itself, and each is proved by itself. An
//! expression with no bracket round it opens no construct, and is read as what stands in a construct further out. The nodes are made
//! by the makers that the readers are given.
#![tactic(auto)]

mod cases;
mod choice;
mod conditions;
mod declarations;
mod handlers;
mod jumps;
mod loops;
mod readers;
mod sequence;
mod variables;

pub use readers::Statements;
