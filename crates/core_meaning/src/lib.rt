//! The meaning of the small tree: definitions alone, in `specs/`.
#![tactic(auto)]
