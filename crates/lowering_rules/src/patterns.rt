//! Patterns and the head of for-of.

use core_ast::{CoreExpr, CoreStat, Key, Label, ScopedName, Var};
use sqlite_items::Items;

/// The name of a property. What is computed is kept as a key in a variable.
#[derive(Drop)]
pub enum PropertyName {
    Literal(Key),
    Computed { kept: Var, key: CoreExpr },
    /// `[Symbol.iterator]`
    Iterator,
}

/// A variable that is assigned: whether it may be uninitialized, and whether it is constant.
#[derive(Clone, Copy)]
pub struct VariableTarget {
    pub var: Var,
    pub checked: bool,
    pub constant: bool,
}

/// A property that is assigned, and the variable that keeps its object.
#[derive(Drop)]
pub struct MemberTarget {
    pub base: Var,
    pub object: CoreExpr,
    pub name: PropertyName,
}

/// Where a part of a pattern goes: the statements before its value is taken, the default, and the statements that put the value
/// there.
#[derive(Drop)]
pub struct Target {
    pub before: Items<CoreStat>,
    pub default: Option<CoreExpr>,
    pub after: Items<CoreStat>,
}

/// A part of an object pattern.
#[derive(Drop)]
pub struct ObjectPart {
    pub name: PropertyName,
    pub target: Target,
}

/// A part of an array pattern. A rest has no default.
#[derive(Drop)]
pub enum ArrayPart {
    Elision,
    Element(Target),
    Rest(Target),
}

/// The parts of a for-of: the names of the head as they are while the subject is evaluated, the subject, the labels, the names
/// of a turn, and its statements, which begin by binding the value.
#[derive(Drop)]
pub struct ForOf {
    pub dead: Items<ScopedName>,
    pub subject: CoreExpr,
    pub labels: Items<Label>,
    pub names: Items<ScopedName>,
    pub turn: Items<CoreStat>,
}
