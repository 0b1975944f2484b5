//! Lists of edits: a text of lines, each of which puts a file at a path, drops a path, or builds.
#![tactic(auto)]

mod edit;
mod fault;
mod lines;
mod reading;

pub use edit::Edit;
pub use fault::ListFault;
pub use lines::edits_of;
