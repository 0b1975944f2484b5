//! Reads modules of ECMAScript 2015 (ECMA-262, 6th edition, 15.2) from their tokens.

mod parse;

pub use crate::ParseFault;
pub use parse::parse_module;
