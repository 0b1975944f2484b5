//! What core a linked graph of modules is lowered to, in `specs/`: a fold over the trees of its modules, with the names that their
//! scopes find. The constructs themselves are those of lowering_rules. This crate has the definitions, and the types that they
//! speak of; the walk that does what they say stands in a crate of its own.
#![tactic(auto)]

mod context;
mod lowerer;
mod meaning;

pub use context::{Context, Dead, FunctionForm, JumpForm, JumpTarget, Role, ThisKind};
pub use lowerer::{Lowerer, Seen};
pub use meaning::{Entry, Meaning, NamespaceEntries};
