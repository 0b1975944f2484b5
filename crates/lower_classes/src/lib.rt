//! Classes, their constructors, and `super`.
#![tactic(auto)]

mod classes;
mod constructors;
mod members;
mod supers;

pub use classes::lower_class;
pub use constructors::{default_body, lower_constructor};
pub use supers::{lower_super_call, lower_super_get, lower_this};
