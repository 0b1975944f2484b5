//! What a program of ECMAScript 2015 means: the state of a run and its steps, one row for each node and each
//! pending frame.
//!
//! The crate has definitions alone, in `specs/`.
#![tactic(auto)]
