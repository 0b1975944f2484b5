//! Patterns that take values (ECMA-262, 6th edition, 12.14.5 and 13.3.3): the body of the walker of patterns. What stands inside a
//! pattern is made by the walkers that it is handed, so nothing here leads back to itself.
#![tactic(auto)]

mod bound;
mod members;
mod names;
mod parts;
mod patterns;
mod taken;

pub use bound::lower_bound;
