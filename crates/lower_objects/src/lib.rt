//! Object literals.
#![tactic(auto)]

mod front;
mod members;
mod objects;
mod texts;

pub use objects::lower_object;
