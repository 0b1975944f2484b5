//! What the lowering makes of statements, of the bodies of functions and of modules, as functions on the trees of cores, in `specs/statement_rules/`, and
//! the types that these speak of. The builders stand in crates of their own.

mod bodies;
mod statements;

pub use bodies::{BodyNames, Export, ModuleScope, Namespace, Receiver};
pub use statements::{ForLoop, ForTurns, Handler, SwitchParts};
