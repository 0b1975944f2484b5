//! What the script of a core is, as a function on the trees, in `specs/`, and the types that this speaks of.
#![tactic(auto)]

mod scene;

pub use scene::{Closure, Current, Scene, Slots, Uses};
