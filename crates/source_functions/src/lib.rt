//! Functions: how they are made (ECMA-262, 6th edition, 9.2.3 to 9.2.8, 14.1.19, 14.2.16, 14.4.11), and what a call of one begins with
//! (9.2.1, 9.2.12).
#![tactic(auto)]

mod bindings;
mod bodies;
mod closures;
mod code;
mod declared;
mod parameters;
mod work;

pub use bindings::{first_bindings, with_arguments};
pub use bodies::{body_instantiated, run_code, with_body_record};
pub use closures::{closed, closed_in, closure_in};
pub use code::{
    are_simple, constructor_count, is_arrow, is_class, is_derived, is_generator, parameters_of,
    share_code, statements_of,
};
pub use declared::{function_expression, with_function, with_functions};
pub use parameters::{default_taken, one_parameter, parameter_matched};
pub use work::FunctionWork;
