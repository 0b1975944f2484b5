//! Functions of the program as they are called, in code.
#![tactic(auto)]

mod calls;
mod contexts;
mod parameters;
mod pending;

pub use calls::call_value;
pub use parameters::{bind_parameters, parameters_bound, parameters_rest};
pub use pending::EntryWork;
