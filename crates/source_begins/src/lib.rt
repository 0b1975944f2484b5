//! Nodes that begin in a run of modules: expressions, statements and items.
#![tactic(auto)]

mod begun;
mod expressions;
mod items;
mod pending;
mod started;

pub use begun::{begin_expression, refer_expression};
pub use items::run_items;
pub use pending::BeginWork;
pub use started::{run_statements, start_statement};
