//! Calls of hosts and of the library, constructions, and generators, in code.
#![tactic(auto)]

mod constructions;
mod contexts;
mod delegation;
mod generators;
mod hosts;
mod pending;
mod resumption;
mod yielding;

pub use constructions::{
    construct, construct_parent, constructed, constructs_as, derived_given, making,
};
pub use contexts::share_own;
pub use delegation::{delegate, delegate_done, delegate_given, delegate_turn, delegate_value};
pub use generators::{generated, generator_made};
pub use hosts::{call_host, call_library, reply_of};
pub use pending::CallWork;
pub use resumption::{arrives, resume, starts};
pub use yielding::yields;
