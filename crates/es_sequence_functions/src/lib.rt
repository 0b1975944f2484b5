//! The functions of the library that have to do with lists and texts, one turn at a time: those of arrays, functions, iterators and
//! texts.
#![tactic(auto)]

pub mod array;
pub mod function;
pub mod iterator;
mod search;
pub mod string;
