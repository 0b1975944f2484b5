//! Reads the expressions and statements of modules (ECMA-262, 6th edition, 12 to 14, and for `**` the 7th edition, 12.6), and
//! refines expressions to patterns and to parameters (12.14.5, 14.2).
#![tactic(auto)]

pub mod es6_module;
mod fault;
mod inner;
mod limits;
mod nested;
mod parse;
mod readers;
mod statement_limit;

pub use es6_trees::{RefineFault, refine_parameters, refine_pattern};
pub use fault::{ParseFault, fault_of, place_of};
pub use inner::{inner_statement, nested_expression};
pub use parse::{Context, parse_expression, parse_statement};
