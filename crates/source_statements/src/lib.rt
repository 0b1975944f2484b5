//! Statements and loops, for steps of a run of modules.
#![tactic(auto)]

mod blocks;
mod conditions;
mod declarations;
mod for_of_loops;
mod jumps;
mod loops;
mod pending;
mod scopes;
mod switches;
mod turns;

pub use blocks::{catches, finish, run_block, try_statement};
pub use conditions::{chosen, conditions_on, start, test_condition};
pub use declarations::{binds_of, variable_matched, variables_on};
pub use for_of_loops::{
    for_of, for_of_jumped, for_of_step, for_of_stepped, for_of_valued, subject_valued,
};
pub use jumps::{broken, broken_at, return_value};
pub use loops::{for_loop, plain_loop};
pub use pending::StatementWork;
pub use scopes::scope_entered;
pub use switches::{matched, switch_on};
pub use turns::{loop_begun, loop_continued, loop_on, loop_tested, run_turn, test_loop};
