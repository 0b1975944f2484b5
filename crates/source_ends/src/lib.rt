//! Completions that are handed to pending work of a run of modules which takes more than a value, or something else.
#![tactic(auto)]

mod bodies;
mod callers;
mod ends;
mod resumptions;
mod scopes;
mod slots;
mod targets;

pub use bodies::body_handed;
pub use callers::caller_handed;
pub use ends::end_handed;
pub use resumptions::resumption_handed;
pub use scopes::scope_handed;
pub use slots::slot_handed;
pub use targets::target_handed;
