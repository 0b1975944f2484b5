//! Laws of the tokens: how they are spelled, in the productions of the lexical grammar
//! (ECMA-262, 6th edition, 11). Each is the contract of a function that does nothing.
#![tactic(auto)]

mod laws;

pub use laws::{comments, numbers, one_row, punctuators, templates, texts, tokens, words};
