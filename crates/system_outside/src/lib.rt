//! What a process lends to commands: the files of the system, its streams, and the hosts of the program.
#![tactic(auto)]

mod hosts;
mod system;

pub use hosts::{CountHost, PrintHost, ReadHost};
pub use system::{StreamSink, SystemFiles};
