//! What stays of a body that is borrowed: whether a statement stays as it is, and equal trees of those that do.
#![tactic(auto)]

mod copies;
mod staying;

pub use copies::{copied_expr, copied_stat};
pub use staying::stays_alone;
