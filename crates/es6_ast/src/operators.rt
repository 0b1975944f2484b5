//! The operators of expressions, the literals, and the kinds of declarations and methods.

use shared_text::Units;

/// An operator before its operand (ECMA-262, 6th edition, 12.5), but `++` and `--`.
#[derive(Clone, Copy, Debug, PartialEq, Eq)]
pub enum UnaryOperator {
    Delete,
    Void,
    Typeof,
    Plus,
    Minus,
    BitNot,
    Not,
}

/// What adds or takes one (12.4, 12.5.7, 12.5.8).
#[derive(Clone, Copy, Debug, PartialEq, Eq)]
pub enum UpdateOperator {
    IncrementBefore,
    DecrementBefore,
    IncrementAfter,
    DecrementAfter,
}

/// An operator between two operands (12.6 to 12.12), but `**`.
#[derive(Clone, Copy, Debug, PartialEq, Eq)]
pub enum BinaryOperator {
    Or,
    And,
    BitOr,
    BitXor,
    BitAnd,
    Equal,
    NotEqual,
    Same,
    NotSame,
    Less,
    Greater,
    AtMost,
    AtLeast,
    InstanceOf,
    In,
    ShiftLeft,
    ShiftRight,
    ShiftRightUnsigned,
    Add,
    Subtract,
    Multiply,
    Divide,
    Remainder,
}

/// An assignment operator (12.14): `=` alone, or with the operator that comes before it. `**=` is that of the 7th edition,
/// 12.15.
#[derive(Clone, Copy, Debug, PartialEq, Eq)]
pub enum AssignOperator {
    Assign,
    MultiplyAssign,
    DivideAssign,
    RemainderAssign,
    AddAssign,
    SubtractAssign,
    ShiftLeftAssign,
    ShiftRightAssign,
    ShiftRightUnsignedAssign,
    BitAndAssign,
    BitXorAssign,
    BitOrAssign,
    PowerAssign,
}

/// A literal (12.2.4). A number is whole and at most 9007199254740991.
#[derive(Debug, Drop)]
pub enum Literal {
    Null,
    Truth(bool),
    Integer(i64),
    Text(Units),
}

/// The word that declares variables (13.3).
#[derive(Clone, Copy, Debug, PartialEq, Eq)]
pub enum VariableKind {
    Var,
    Let,
    Const,
}

/// What a method definition defines (14.3, 14.4).
#[derive(Clone, Copy, Debug, PartialEq, Eq)]
pub enum MethodKind {
    PlainMethod,
    GetterMethod,
    SetterMethod,
    GeneratorMethod,
}
