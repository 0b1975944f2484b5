//! What the script of a core has of helpers: constant definitions, of which it takes those that it calls, and those that these use.
#![tactic(auto)]

mod asked;
mod definitions;
mod script;
mod table;
mod text;
mod wanted;

pub use script::helper_script;
pub use text::helper_text;
