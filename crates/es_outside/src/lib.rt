//! The outside of a program: files, sinks and hosts as traits with contracts, and objects in memory that meet them.
#![tactic(auto)]

mod calls;
mod events;
mod fault_count;
mod files;
mod host;
mod host_names;
mod hosts;
mod list_host;
mod memory_files;
mod memory_sink;
mod named;
mod names;
mod primitive;
mod sink;
mod talk;

pub use events::{Ending, Event, Seen, Site, Step};
pub use fault_count::FaultCount;
pub use files::{FileAnswer, Files};
pub use host::{Host, HostAnswer, Reply};
pub use hosts::{Hosts, HostsRefused};
pub use list_host::ListHost;
pub use memory_files::MemoryFiles;
pub use memory_sink::MemorySink;
pub use names::{HostNames, HostsRefused2};
pub use primitive::{Prim, Primitive, Prims};
pub use shared_text::Units;
pub use sink::{Sink, SinkFailed, write_all};
pub use talk::Talk;
