//! Reads scripts of ECMAScript 5.1 (ECMA-262, 5.1 edition, 11 to 14), in the profile of `docs/ES5_PROFILE.md`.
#![tactic(auto)]

mod ahead;
mod fault;
mod inner;
mod limit;
mod nested;
mod parse;
mod program;

pub use fault::Fault5;
pub use parse::parse5;
