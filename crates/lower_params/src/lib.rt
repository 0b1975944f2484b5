//! Templates, calls with spread arguments, parameters and arrows.
#![tactic(auto)]

mod calls;
mod functions;
mod parameters;
mod templates;

pub use calls::{lower_construction, lower_spread};
pub use functions::{concise, lower_arrow, placed};
pub use parameters::lower_parameters;
pub use templates::lower_template;
