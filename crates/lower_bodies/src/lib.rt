//! Bodies of functions, functions with a name of their own, namespace objects, and the parts of modules.
#![tactic(auto)]

mod declarations;
mod functions;
mod modules;
mod namespaces;
mod values;

pub use functions::{begun, lower_body};
pub use modules::{lower_default, lower_part};
pub use namespaces::export_getter;
pub use values::{after_running, lower_named_function};
