//! Parameters.

use core_ast::{CoreExpr, CoreStat, Var};
use sqlite_items::Items;

/// A parameter: the variable that takes the argument, the default, and the statements that bind the parameter's names to the
/// variable's value. A plain name that stands before each default and pattern is the variable itself, and has no statement.
#[derive(Drop)]
pub struct Parameter {
    pub formal: Var,
    pub default: Option<CoreExpr>,
    pub bound: Items<CoreStat>,
}

/// A rest parameter: the variable that takes the list, and the statements that bind names to it.
#[derive(Drop)]
pub struct RestParameter {
    pub list: Var,
    pub bound: Items<CoreStat>,
}

/// A variable of the body that is named as a parameter, and begins with its value.
#[derive(Clone, Copy)]
pub struct BodyVar {
    pub var: Var,
    pub parameter: Var,
}

/// The names that are uninitialized until their parameter is reached, and the variables of the body that are named as one.
#[derive(Drop)]
pub struct ParameterScope {
    pub names: Items<Var>,
    pub body: Items<BodyVar>,
}
