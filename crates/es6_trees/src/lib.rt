//! The trees of modules as what the readers make (ECMA-262, 6th edition, 12 to 14).
//!
//! No other crate below the readers' entry builds nodes of expressions or statements, so no other proof there reaches all types
//! of the tree. A method that boxes more than one child, or one beside others, hands all of them to one generic function.
#![tactic(auto)]

mod arguments;
mod boxes;
mod build;
mod classes;
mod declarations;
mod elements;
mod expressions;
mod fault;
mod functions;
mod groups;
mod handlers;
mod items;
mod links;
mod loops;
mod made;
mod names;
mod operators;
mod parameters;
mod patterns;
mod properties;
mod reading;
mod readings;
mod refine;
mod refining;
mod split;
mod statements;
mod templates;

pub use fault::{RefineFault, Unrefined};
pub use reading::Reading;
pub use refine::{parameters_within, refine_parameters, refine_pattern, target_before};

/// Makes the trees themselves.
pub struct Trees;
