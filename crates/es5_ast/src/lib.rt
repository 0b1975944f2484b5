//! Scripts of ECMAScript 5.1: their trees, and in `specs/` their grammar.
//!
//! The scripts are strict code of ECMA-262, 5.1 edition, in the profile of `docs/ES5_PROFILE.md`. Offsets are counted in
//! bytes from 0.
#![tactic(auto)]

mod operators;
mod tree;

pub use operators::{
    AssignOperator5, BinaryOperator5, Key5, Literal5, UnaryOperator5, UpdateOperator5,
};
pub use tree::{
    Block5, Case5, Catch5, Condition5, Declared5, Element5, Expr5, ForFirst5, Function5,
    Identifier5, Link5, Operand5, PlacedKey5, Property5, Script, Stat5,
};
