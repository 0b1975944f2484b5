//! Parts of statements.

use core_ast::{CoreCase, CoreExpr, CoreStat, Declared, Label, ScopedName, Var};
use sqlite_items::Items;

/// What each turn of a `for` does.
#[derive(Drop)]
pub struct ForTurns {
    pub label: Label,
    pub test: Option<CoreExpr>,
    pub update: Option<CoreExpr>,
    pub body: Items<CoreStat>,
}

/// The parts of a `for`: the names of its head, the statements that initialize these or stand in their place, and its turns.
#[derive(Drop)]
pub struct ForLoop {
    pub names: Items<ScopedName>,
    pub first: Items<CoreStat>,
    pub turns: ForTurns,
}

/// The parts of a switch: the variable that keeps its subject, the subject, the names of
/// its cases, the functions among these, and the cases.
#[derive(Drop)]
pub struct SwitchParts {
    pub label: Label,
    pub kept: Var,
    pub subject: CoreExpr,
    pub names: Items<ScopedName>,
    pub functions: Items<Declared>,
    pub cases: Items<CoreCase>,
}

/// A handler: the variable that takes what is thrown, the names of its pattern, the statements that bind these to the variable's
/// value, and its block.
#[derive(Drop)]
pub struct Handler {
    pub thrown: Var,
    pub names: Items<ScopedName>,
    pub bound: Items<CoreStat>,
    pub block: Items<CoreStat>,
}
