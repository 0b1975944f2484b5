//! The script of a core.
#![tactic(auto)]

mod choices;
mod declarations;
mod functions;
mod kinds;
mod labels;
mod modules;
mod script;
mod statements;
mod values;
mod walk;

pub use declarations::push_declared;
pub use functions::behind;
pub use modules::module;
pub use script::{emit, handed, own_declarations, parameters, scene_behind};
pub use statements::{expression, returned};
