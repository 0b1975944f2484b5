//! The running of a script that stands in a file.
#![tactic(auto)]

mod placing;
mod reading;
mod running;
mod unread;

pub use program_runs::RunEnd;
pub use reading::{ReadScript, read_script, script_of};
pub use running::run_script;
pub use unread::Unread;
