//! Classes.

use core_ast::{CoreExpr, FunctionId, Var};
use shared_text::Units;

/// The variables that keep a class and its `prototype` while it is defined.
#[derive(Clone, Copy)]
pub struct ClassNames {
    pub class: Var,
    pub prototype: Var,
}

/// The key of a member. What is computed is kept as a key in a variable.
#[derive(Drop)]
pub enum ClassKey {
    TextName(Units),
    ComputedName { kept: Var, key: CoreExpr },
}

/// What a member is.
#[derive(Clone, Copy)]
pub enum MemberKind {
    Method,
    Getter,
    Setter,
}

/// A member of a class.
#[derive(Drop)]
pub struct ClassMember {
    pub is_static: bool,
    pub kind: MemberKind,
    pub key: ClassKey,
    pub function: FunctionId,
}
