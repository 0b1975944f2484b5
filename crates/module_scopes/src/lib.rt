//! The names of a module: which ones each construct declares, and what is declared round a place (ECMA-262, 6th edition, 8.1,
//! 13, 14 and 15.2).
#![tactic(auto)]

mod bindings;
mod declarations;
mod environment;
mod imports;
mod patterns;
mod variables;

pub use bindings::Bindings;
pub use environment::Environment;
pub use imports::is_host;
