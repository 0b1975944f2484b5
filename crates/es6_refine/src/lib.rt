//! Whether expressions are patterns, or an arrow's parameters, after the fact (ECMA-262, 6th edition, 12.14.5, 13.3.3, 14.2): one
//! walk over the expression that finds its first part which no pattern spells. es6_trees builds the pattern.
//!
//! The contracts are over the model of `es6_reading`. Offsets are counted in bytes from 0.
#![tactic(auto)]

mod binds;
mod fit;
mod parameters;
mod places;
mod targets;

pub use fit::Fit;
pub use parameters::{are_parameters, parameters_fit};
pub use targets::is_pattern;
