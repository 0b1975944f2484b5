//! What the walk that lowers the tree of a module makes of statements (ECMA-262, 6th edition, 13). Expressions, patterns, functions and the
//! statements inside a statement are left to walkers that are handed in.
#![tactic(auto)]

mod blocks;
mod branches;
mod choices;
mod declarations;
mod flow;
mod for_loops;
mod for_of;
mod handlers;
mod jumps;
mod labels;
mod loops;
mod statements;

pub use declarations::lower_class_at;
pub use statements::lower_statement;
