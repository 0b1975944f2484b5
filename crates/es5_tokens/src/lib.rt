//! The tokens of a script (ECMA-262, 5.1 edition, 7), in the profile of `docs/ES5_PROFILE.md`.
//! A text is read once, to its end or to the first place at which no token of the profile begins.
#![tactic(auto)]

mod classes;
mod element;
mod number;
mod punctuator;
mod quoted;
mod reader;
mod shape;
mod token;

pub use reader::tokens5;
pub use token::{Punctuator, Token, TokenFault, TokenKind, Tokens};
