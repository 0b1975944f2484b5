//! The lines of a run: its events, how it ends, and why a script isn't run.
#![tactic(auto)]

mod endings;
mod events;
mod script_fault;
mod text;

pub use endings::{push_ended, push_host_failed, push_left, push_still_running, push_threw};
pub use events::{push_event, push_value};
pub use script_fault::{ScriptFault, ScriptFinding, script_line};
