//! The states of the machine of the small tree, with what is handed on and what is pending in them.
#![tactic(auto)]

mod environment;
mod frame;
mod nodes;
mod stack;
mod state;
mod stats;
mod table;
mod value;

pub use environment::Environment;
pub use frame::{Control, Frame, Loop, Strict};
pub use nodes::{Cases, Expr, Exprs, Labels, Links, Names, Op};
pub use stack::Stack;
pub use state::{Context, State};
pub use stats::Stats;
pub use table::Table;
pub use value::{Binding, Call, Closure, Completion, CoreValue, Current};
