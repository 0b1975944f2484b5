//! Numbers of bindings, bindings that are looked up by a key, and names that are numbered in the order in which they come first.
#![tactic(auto)]

mod ids;
mod names;
mod table;

pub use ids::{BindingId, RefId, Row};
pub use names::NumberedNames;
pub use table::Table;
