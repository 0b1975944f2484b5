//! Object literals and the methods in them, and classes (ECMA-262, 6th edition, 12.2.6, 14.3, 14.5), in code.
#![tactic(auto)]

mod classes;
mod definitions;
mod inherited;
mod literals;
mod members;
mod methods;
mod pending;

pub use classes::{begin_class, heritage_given, heritage_valued};
pub use definitions::{Defined, define};
pub use literals::{method_named, properties_on, property_valued, value_named};
pub use members::member_named;
pub use methods::define_method;
pub use pending::{ClassWork, ObjectWork};
