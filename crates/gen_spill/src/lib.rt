//! What is made of parts of a core whose yields are done: links behind an expression so far, branches, cases and loops.
#![tactic(auto)]

mod branches;
mod build;
mod cases;
mod chains;
mod delegation;
mod loops;
mod parts;
mod places;
mod references;

pub use branches::{one_branch, two_branches};
pub use build::{going_on, push_effects};
pub use cases::{cased, push_if, push_switch};
pub use chains::{finished, room, strict};
pub use loops::{loop_place, push_loop};
pub use parts::settled;
pub use places::{deeper, under};
