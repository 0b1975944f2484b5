//! The functions of the library that have to do with objects and errors, one turn at a time.
#![tactic(auto)]

pub mod error;
pub mod fifth;
pub mod object;
