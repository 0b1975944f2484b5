//! What the rows of a run of modules ask of the tree: the names that its parts declare, lent, and what the parameters of a function are
//! (ECMA-262, 6th edition, 9.2.12, 13.2, 13.3, 14.1, 14.5.3).
#![tactic(auto)]

mod classes;
mod functions;
mod lexicals;
mod marks;
mod names;
mod parameters;

pub use classes::{constructor_in, optional_name};
pub use functions::{function_names, functions_in, last_ones};
pub use lexicals::{
    add_lexicals, add_unbound, block_bindings, lexical_bindings, parts_bindings, pattern_bindings,
};
pub use marks::mentions_arguments;
pub use names::{
    add_variables, has_name, parameters_names, parts_names, pattern_names, variables_in,
};
pub use parameters::{are_simple, expected_count, have_expression};
