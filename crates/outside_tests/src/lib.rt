//! Tests of the objects in memory that never fail and of the slow sink, which stand here so that their
//! crate is not proved a second time with its tests.
#![tactic(auto)]

#[cfg(test)]
mod sure_outside_tests;
