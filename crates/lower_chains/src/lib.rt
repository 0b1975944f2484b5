//! Lowers chains of accesses and calls, `new`, `super`, `this` and `new.target` (ECMA-262, 6th edition, 12.2.2 and 12.3). Each function
//! does exactly what module_lowering says of the node, or runs out of memory; the expressions inside it are left to the walker that it
//! is handed.
#![tactic(auto)]

mod chained;
mod chains;
mod news;
mod receivers;
mod sites;
mod supers;

pub use chains::lower_chain;
pub use news::lower_new;
pub use receivers::{lower_new_target, lower_this_value};
pub use supers::{lower_super_called, lower_super_index, lower_super_member};
