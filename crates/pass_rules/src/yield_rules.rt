//! What the flattening of yields computes, as a function on the trees of cores, in `specs/yield_rules/`, and the types that this speaks of. The
//! pass stands in a crate of its own.

mod spilling;

pub use spilling::{Chain, Matching, Place, Reference, Settled, Spilled, SpilledCase};
