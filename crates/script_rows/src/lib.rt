//! Scripts for the machine of the small tree: their rows in code, and the state in which a script starts.
#![tactic(auto)]

mod bindings;
mod rows;
mod start;

pub use rows::{ScriptRows, ScriptState};
pub use start::script_state;
