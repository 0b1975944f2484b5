//! What the marks of a module have of names and of the heads of functions, where no statement and no expression is entered
//! (ECMA-262, 6th edition, 8.1 and 13 to 15).
#![tactic(auto)]

mod imports;
mod parameters;
mod references;
mod scopes;
mod targets;

pub use imports::{declare_imports, import_kind};
pub use parameters::have_expression;
pub use references::{refer_identifier, refer_name};
pub use scopes::{begin_body, begin_function, begin_own, end_body, end_own};
pub use targets::{declare_target, kind_of};
