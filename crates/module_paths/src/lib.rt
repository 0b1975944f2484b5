//! Paths of modules: the path that a specifier names in a module, and the normal form of a path.
//!
//! A path is a text in UTF-8. Its segments stand between slashes, and a path that begins with a slash is absolute.
#![tactic(auto)]

mod paths;
mod segments;

pub use paths::{PathFault, normal_form, normal_path};
