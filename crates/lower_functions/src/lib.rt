//! Functions, arrows and classes of modules as the walk that lowers them makes them. Each function here is outside any cycle: what stands
//! inside a node is lowered by the walkers that it is handed.
#![tactic(auto)]

mod arrows;
mod bodies;
mod classes;
mod constructors;
mod forms;
mod functions;
mod inside;
mod members;
mod parameters;
mod parts;
mod walk;

pub use arrows::lower_arrow_function;
pub use classes::{ClassParts, lower_class_definition};
pub use functions::lower_function;
