//! Modules in a run (ECMA-262, 6th edition, 15.2): how they are instantiated, where a run starts, and how namespace objects are read.
#![tactic(auto)]

mod declared;
mod imports;
mod instantiation;
mod items;
mod namespaces;
mod reads;
mod records;
mod run_start;

pub use instantiation::within_module;
pub use reads::read_out;
pub use run_start::start;
