//! The meaning of scripts: definitions, in `specs/`.
#![tactic(auto)]

mod nothing;

pub use nothing::Nothing;
