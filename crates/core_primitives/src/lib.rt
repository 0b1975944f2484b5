//! Which primitives the script of a core calls, and so has to define: those that stand in it, and those that are called
//! for nodes which a script can't say.
#![tactic(auto)]

mod literal;
mod used;
mod walk;

pub use literal::{Literal, Met};
pub use used::UsedPrimitives;
