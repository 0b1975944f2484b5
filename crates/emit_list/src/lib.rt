//! The scripts of a core: a loader, one for each part, and a start.
#![tactic(auto)]

mod list;
mod loader;
mod names;
mod parts;

pub use list::emit_list;
