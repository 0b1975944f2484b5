//! Small expressions and statements, and lists of arguments and arrays: what the builders of the lowering are made of.
#![tactic(auto)]

mod build;
mod lists;

pub use build::{
    alone, differs, flag, initialize, is_same, number, primitive, push_default, push_scoped, set,
    stored, text, then, through, through_with, to_text, two, uninitialized, when,
};
pub use lists::{lower_arguments, lower_array};
