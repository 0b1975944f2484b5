//! Reads what operators stand between: names, literals, templates, arrays and objects, parentheses, and the accesses and calls that
//! follow these (ECMA-262, 6th edition, 12.2, 12.3).
//!
//! Expressions hold expressions one construct deeper, and bodies of functions hold statements. Each reader here is given the readers
//! of these, as they read where at most so many constructs may still open as at the reader. So no reader leads back to itself, and
//! each is proved by itself. The nodes are those of the maker that the caller chooses.
#![tactic(auto)]

mod chains;
mod cover;
mod lists;
mod nested;
mod primary;
mod property;
mod readers;
mod template;
mod template_parts;

pub use readers::Primaries;
