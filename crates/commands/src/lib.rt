//! What the program does: a command over files, hosts and streams that its caller hands in.
#![tactic(auto)]

mod build;
mod command;
mod ending;
mod fault;
mod map;
mod rebuilding;
mod run;
mod run5;
mod sample;
mod split;
mod status;
mod top;

pub use status::Status;
pub use top::es5c;
