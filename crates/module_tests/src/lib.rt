//! Tests of the crates of module graphs, which stand here so that no crate is proved a second time with its tests.
#![tactic(auto)]

#[cfg(test)]
mod module_paths_tests;
