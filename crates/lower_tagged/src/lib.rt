//! Tagged templates.
#![tactic(auto)]

mod templates;

pub use templates::{lower_tagged, template_object};
