//! The scopes of a graph's modules: which binding each reference by name finds, and what is known of bindings and references
//! (ECMA-262, 6th edition, 8.1).
#![tactic(auto)]

mod ends;
mod globals;
mod scopes;
mod tables;

pub use binding_tables::{BindingId, RefId};
pub use scopes::{Scopes, resolve};
