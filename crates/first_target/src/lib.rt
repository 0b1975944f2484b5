//! Scripts of ECMAScript 5.1, as far as the program writes them today: their trees, and in `specs/` which scripts of the
//! whole grammar these are, and their meaning. They stand in until whole modules are lowered.
//!
//! Each node says where its first token begins, as an offset in bytes from 0.
#![tactic(auto)]

use shared_text::{Name, Units};
use sqlite_items::Items;

/// A script: its statements in text order (ECMA-262, 5.1 edition, 14).
#[derive(Debug, Drop)]
pub struct Script {
    pub statements: Items<Stat5>,
}

/// A statement.
#[derive(Debug, Drop)]
pub enum Stat5 {
    /// `var NAME = EXPRESSION;` (12.2)
    Var { at: u32, name: Name, init: Expr5 },
    /// An expression as a statement, a directive among them (12.4, 14.1).
    Expression(Expr5),
}

/// An expression.
#[derive(Debug, Drop)]
pub enum Expr5 {
    Sum(Sum5),
    Call(Call5),
}

/// A call of a function by its name (11.2.3).
#[derive(Debug, Drop)]
pub struct Call5 {
    pub at: u32,
    pub callee: Name,
    pub args: Items<Sum5>,
}

/// An additive expression (11.6): a first operand, and those that are added to it from left to right.
#[derive(Debug, Drop)]
pub struct Sum5 {
    pub at: u32,
    pub first: Term5,
    pub rest: Items<Term5>,
}

/// An operand that is a literal or a name (11.1).
#[derive(Debug, Drop)]
pub enum Term5 {
    Integer(u64),
    Text(Units),
    Name { at: u32, name: Name },
}
