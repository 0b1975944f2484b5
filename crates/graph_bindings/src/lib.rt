//! What the bindings of a linked graph stand for in its core, and what else of it is known before its modules are lowered.
#![tactic(auto)]

mod counts;
mod known;
mod meanings;
mod numbering;
mod requests;
mod spaces;
mod wanted;

pub use known::{Known, known_of, start};
