//! The tokens of module code (ECMA-262, 6th edition, 11), with the power operators of the 7th.
//! A text is read once, and its list of tokens ends with `End` or with the first lexical fault.
#![tactic(auto)]

mod braces;
mod classes;
mod element;
mod lexer;
mod number;
mod punctuator;
mod quoted;
mod shape;
mod token;
mod values;

pub use lexer::{lex6, one_token_list};
pub use token::{LexicalKind, NumberToken, Punctuator, Token, TokenKind};
