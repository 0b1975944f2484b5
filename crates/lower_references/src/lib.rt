//! Names, properties and calls: what is read, written, deleted and called.
#![tactic(auto)]

mod calls;
mod made_calls;
mod members;
mod names;
mod operators;
mod properties;
mod reached;
mod writes;

pub use calls::{lower_called, lower_called_as_tag, lower_constructed};
pub use members::{drawn_member, lower_accessed};
pub use names::{lower_found, plain_target, type_of};
pub use reached::{lower_assigned, lower_deleted, lower_operated, lower_updated, value_of};
pub use writes::pattern_assigned;
