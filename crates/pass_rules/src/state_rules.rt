//! What the states of generators are, as a function on the trees of cores, in `specs/state_rules/`, and the types that this speaks of. The
//! pass stands in a crate of its own.

mod states;

pub use states::{Completion, Machine, Place, Registers, Target};
