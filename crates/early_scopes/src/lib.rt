//! The rules on the names that the scopes of a function or a module declare (ECMA-262, 6th edition, 13 to 15): a walk through
//! its statements that meets each var name once, and enters no function in them. Rules are numbers of table E in
//! docs/PROFILE.md, places are offsets in bytes from 0.
#![tactic(auto, using(crate::proofs::Passing::passing))]

mod bodies;
mod heads;
mod items;
mod modules;
mod rules;
mod statements;
mod var_names;

pub use bodies::body;
pub use items::add_imported;
pub use modules::module;
