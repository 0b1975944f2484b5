//! What both languages' meanings share: primitive values and what is done to them, and how a run ends.
//!
//! The crate has definitions alone, in `specs/`.
#![tactic(auto)]
