//! Findings of a walk through a module: a rule of docs/PROFILE.md that is broken, and where. Of all that a walk meets, the one
//! that comes first by place, then by rule, is kept.
#![tactic(auto)]

mod finder;
mod finding;

pub use finder::Finder;
pub use finding::Finding;
