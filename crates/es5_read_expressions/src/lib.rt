//! Reads expressions and functions of scripts (ECMA-262, 5.1 edition, 11, 13). What stands one construct deeper is read by readers
//! that are handed in.
#![tactic(auto)]

mod binary;
mod chains;
mod expression;
mod function;
mod inner;
mod lists;
mod primary;
mod property;

pub use chains::chain;
pub use expression::{assignment, sequence, unary};
pub use function::{named, rest_of_function, statements};
pub use primary::no_expression;
