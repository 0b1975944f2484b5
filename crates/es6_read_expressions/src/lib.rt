//! Reads expressions from their operators on (ECMA-262, 6th edition, 12.4 to 12.15, 14.2, 14.4, and for `**` the 7th edition, 12.6).
//!
//! Each reader here is given the readers of what stands one construct deeper, as those of es6_read_primaries are. The nodes are those
//! of the maker that the caller chooses.
#![tactic(auto)]

mod assignments;
mod binary;
mod conditional;
mod operators;
mod readers;

pub use readers::Expressions;
