//! Reads modules of ECMAScript 2015 (ECMA-262, 6th edition, 15.2) from their tokens. The reader stands in `es6_expr`, with those of
//! the expressions and statements in modules, since each crate that may let trees go proves anew how that is done.
#![tactic(auto)]

pub use es6_expr::ParseFault;
pub use es6_expr::es6_module::parse_module;
