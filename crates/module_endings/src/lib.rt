//! Where the names of modules end, over summaries of modules: what each exports and which names it wants, without their trees.
//!
//! A name is looked up at a place. From a place one goes on to others, and some places are ends. The places that are reached from the
//! wanted ones are found first, and then which ends are reached from each of them.
#![tactic(auto)]

mod answers;
mod cover;
mod ends;
mod place;
mod sources;
mod summary;
mod wanted;
mod web;

pub use answers::{Outcome, outcomes};
pub use place::{Home, Place};
pub use sources::Sources;
pub use summary::{Export, Summary};
