//! Objects of the outside in memory that never fail, and a sink that takes its bytes slowly.
#![tactic(auto)]

mod slow_sink;
mod sure_files;
mod sure_host;
mod sure_sink;

pub use slow_sink::SlowSink;
pub use sure_files::SureFiles;
pub use sure_host::SureHost;
pub use sure_sink::SureSink;
