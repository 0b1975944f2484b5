//! Tests of the crates that read texts, name the outside and map scripts.
//! They stand here so that no crate is proved a second time with its tests.
#![tactic(auto)]

#[cfg(test)]
mod es6_lexer_tests;
#[cfg(test)]
mod es_outside_tests;
#[cfg(test)]
mod es_text_tests;
#[cfg(test)]
mod first_forms_tests;
#[cfg(test)]
mod source_map_tests;
