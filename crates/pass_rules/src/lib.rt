//! What the passes over the core compute, as functions on its trees, in `specs/`. There is no code here but a few
//! types: each pass stands in a crate of its own, and the laws on what the passes keep are in `pass_laws`.
#![tactic(auto)]

pub mod pass_laws;
pub mod state_rules;
pub mod yield_rules;
