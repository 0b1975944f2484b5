//! The trees of ECMAScript 2015 modules, as far as the program reads them today. They stand in until whole modules, whose
//! trees are es6_ast's, are lowered.
//!
//! Each node says where its first token begins, as an offset in bytes from 0.
#![tactic(auto)]

use shared_text::{Name, Units};
use sqlite_items::Items;

/// A module: its items in text order (ECMA-262, 6th edition, 15.2).
#[derive(Debug, Drop)]
pub struct Module {
    pub items: Items<Item>,
}

/// A part of a module's top level.
#[derive(Debug, Drop)]
pub enum Item {
    /// `import { NAME, .. } from "host";` (15.2.2)
    Import {
        names: Items<Name>,
    },
    /// `let NAME = INIT;` or `const NAME = INIT;` (13.3.1)
    Declaration {
        kind: DeclarationKind,
        name: Name,
        init: Expression,
    },
    /// A call as a statement (13.5).
    Expression(Call),
}

/// Whether a binding can be assigned again.
#[derive(Clone, Copy, Debug, PartialEq, Eq)]
pub enum DeclarationKind {
    Let,
    Const,
}

/// What initializes a declared name.
#[derive(Debug, Drop)]
pub enum Expression {
    Sum(Sum),
    Call(Call),
}

/// A call of a host function (12.3.4).
#[derive(Debug, Drop)]
pub struct Call {
    pub at: u32,
    pub callee: Name,
    pub args: Items<Sum>,
}

/// An additive expression (12.7): a first operand, and those that are added to it from left to right.
#[derive(Debug, Drop)]
pub struct Sum {
    pub at: u32,
    pub first: Term,
    pub rest: Items<Term>,
}

/// An operand that is a literal or a name (12.1, 12.2.4).
#[derive(Debug, Drop)]
pub enum Term {
    Integer { at: u32, value: u64 },
    Text { at: u32, units: Units },
    Name { at: u32, name: Name },
}
