//! What literals and patterns are made of, for steps of a run of modules: texts of names, keys of properties, elements of arrays.
#![tactic(auto)]

mod elements;
mod keys;
mod texts;

pub use elements::{add_element, add_hole};
pub use keys::{FoundKey, found_key};
pub use texts::name_units;
