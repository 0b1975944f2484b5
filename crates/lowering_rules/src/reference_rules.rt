//! What the lowering makes of names, properties, calls and object literals, as functions on the trees of cores, in `specs/reference_rules/`, and the
//! types that these speak of.

mod objects;
mod references;

pub use objects::{ObjectKey, ObjectMember};
pub use references::{Callee, Compound, MemberName, NamedValue, Reached};
