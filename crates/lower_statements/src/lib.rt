//! Statements and declarations: each is made of parts that are lowered already.
#![tactic(auto)]

mod blocks;
mod branches;
mod handlers;
mod jumps;
mod loops;

pub use blocks::{lower_block, lower_class_declaration, lower_lexical, lower_var, push_hoisted};
pub use branches::{branch, lower_if, lower_switch};
pub use handlers::lower_try;
pub use jumps::{body_label, exit_label, jump, labelled, lower_return};
pub use loops::{lower_do_while, lower_for, lower_while};
