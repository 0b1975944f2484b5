//! The marks of a module, of its statements and of its patterns, by a walk that borrows the tree and is as deep as its constructs stand
//! in one another.
#![tactic(auto)]

mod expressions;
mod functions;
mod module;
mod objects;
mod patterns;
mod statements;

pub use module::module_marks;
pub use patterns::{part, targets};
pub use statements::statement;
