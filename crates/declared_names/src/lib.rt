//! The names that a declaration declares, as an `export` before it exports them (ECMA-262, 6th edition, 15.2.3.2).
#![tactic(auto)]

mod declared;
mod heads;
mod var_names;

pub use declared::declared_names;
pub use var_names::add_var_names;
