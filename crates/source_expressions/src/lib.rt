//! Expressions of a run of modules, in code: templates, operators, assignments, and keys of `super`.
#![tactic(auto)]

mod assignments;
mod binary;
mod pending;
mod references;
mod templates;
mod unary;
mod updates;

pub use assignments::{assign_referred, assign_right, begin_assignment};
pub use binary::{operands_on, operate, sequence_on};
pub use pending::ExpressionWork;
pub use references::{super_keyed, super_named};
pub use templates::{template_on, template_texted, template_valued};
pub use unary::{deleted, unary_valued};
pub use updates::{update_numbered, update_read, update_referred};
