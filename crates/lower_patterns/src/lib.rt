//! Patterns, what their parts go to, and for-of.
#![tactic(auto)]

mod arrays;
mod iteration;
mod loops;
mod objects;
mod properties;
mod targets;

pub use arrays::lower_array_pattern;
pub use loops::lower_for_of;
pub use objects::lower_object_pattern;
pub use targets::{assigned_target, declared_target, member_target};
