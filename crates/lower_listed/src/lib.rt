//! What statements and patterns declare, as the walk that lowers modules asks it of the trees that it borrows: names that patterns bind,
//! the names of `var`, the places of lexical names, and functions, which are made where their scope begins.
#![tactic(auto)]

mod functions;
mod hoisted;
mod lexicals;
mod names;
mod patterns;
mod places;
mod statements;
mod variables;

pub use functions::{HoistedAt, push_functions};
pub use hoisted::{lower_body_hoisted, lower_hoisted};
pub use lexicals::push_lexicals;
pub use names::{NamedAt, expression_name, name_places};
pub use patterns::{parameters_names, parts_names, pattern_names};
pub use statements::{
    scope_places, statements_functions, statements_lexicals, statements_variables,
};
pub use variables::push_variables;
