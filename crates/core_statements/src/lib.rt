//! Statements, turns of operations, and functions as they are entered, for a step of the small tree's machine.
#![tactic(auto)]

mod entering;
mod loops;
mod statements;
mod switches;
mod turns;

pub use entering::call_value;
pub use loops::{go_on, jumped, repeat, target_jumped, tested};
pub use statements::{choose, finish, run_stats};
pub use switches::{match_next, matched};
pub use turns::{receive, thrown_out, turn};
