//! Names, properties, and what calls call.

use crate::VariableTarget;
use core_ast::{Binary, CoreExpr, Global, Key};

/// What a name stands for. A host is the callee of a call alone.
#[derive(Clone, Copy)]
pub enum NamedValue {
    UndefinedName,
    GlobalName(Global),
    HostName(u32),
    /// a variable, and whether it is found by an import; that is constant
    VariableName {
        target: VariableTarget,
        imported: bool,
    },
}

/// The operator of a compound assignment, which comes before its `=`.
#[derive(Clone, Copy)]
pub enum Compound {
    Operates(Binary),
    Powers,
}

/// What names a property behind an object: a name, the value of an expression, or `Symbol.iterator` in brackets.
#[derive(Drop)]
pub enum MemberName {
    Named(Key),
    Indexed(CoreExpr),
    AtIterator,
}

/// What an expression comes to before its value is taken: a value, a variable, a property of an object, or the value of a
/// property of `super`, with `this`.
#[derive(Drop)]
pub enum Reached {
    Value(CoreExpr),
    Variable {
        target: VariableTarget,
        imported: bool,
    },
    Property {
        object: CoreExpr,
        name: MemberName,
    },
    Inherited {
        value: CoreExpr,
        this: CoreExpr,
    },
}

/// The function of a call, and the receiver where that isn't the object of the reference that the function is read from.
#[derive(Drop)]
pub struct Callee {
    pub function: CoreExpr,
    pub receiver: Option<CoreExpr>,
}
