//! A script as a core: `core_of` in `specs/`, and the code that makes it.
#![tactic(auto)]

mod expressions;
mod functions;
mod gathered;
mod makers;
mod names;
mod operators;
mod read;
mod script;
mod sites;
mod statements;
mod walk;

pub use gathered::Gathered;
pub use read::StatRead;
pub use script::core_of_script;
pub use sites::Sites;
