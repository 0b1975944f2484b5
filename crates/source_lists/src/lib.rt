//! Arguments and elements, template objects, and the links of chains of a run of modules, in code.
#![tactic(auto)]

mod accessors;
mod collecting;
mod links;
mod passing;
mod pending;
mod spreading;
mod templates;

pub use accessors::indexed;
pub use collecting::{list_on, list_valued};
pub use links::linked;
pub use passing::passes;
pub use pending::ListWork;
pub use spreading::{spread_part, spread_step, spread_stepped, spread_valued};
