//! One step of the small tree's machine at expressions: names, heads, operators, properties, calls, and links one by one.
#![tactic(auto)]

mod heads;
mod invocations;
mod keys;
mod links;
mod names;
mod operators;
mod parts;
mod properties;
mod references;
mod strict;
mod texts;

pub use heads::begin;
pub use invocations::making;
pub use links::go;
pub use names::write;
pub use operators::{operate_by, step_value, stepped};
pub use parts::{fetch_given, part_given};
pub use references::puts;
