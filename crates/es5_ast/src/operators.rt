//! The operators of expressions, and the literals.

use shared_text::{Name, Units};

/// An operator before its operand (ECMA-262, 5.1 edition, 11.4), but `++` and `--`.
#[derive(Clone, Copy, Debug, PartialEq, Eq)]
pub enum UnaryOperator5 {
    Delete,
    Void,
    Typeof,
    Plus,
    Minus,
    BitNot,
    Not,
}

/// What adds or takes one (11.3, 11.4.4, 11.4.5).
#[derive(Clone, Copy, Debug, PartialEq, Eq)]
pub enum UpdateOperator5 {
    IncrementBefore,
    DecrementBefore,
    IncrementAfter,
    DecrementAfter,
}

/// An operator between two operands (11.5 to 11.11).
#[derive(Clone, Copy, Debug, PartialEq, Eq)]
pub enum BinaryOperator5 {
    Or,
    And,
    BitOr,
    BitXor,
    BitAnd,
    Equal,
    NotEqual,
    Same,
    NotSame,
    Less,
    Greater,
    AtMost,
    AtLeast,
    InstanceOf,
    In,
    ShiftLeft,
    ShiftRight,
    ShiftRightUnsigned,
    Add,
    Subtract,
    Multiply,
    Divide,
    Remainder,
}

/// An assignment operator (11.13): `=` alone, or with the operator that comes before it.
#[derive(Clone, Copy, Debug, PartialEq, Eq)]
pub enum AssignOperator5 {
    Assign,
    MultiplyAssign,
    DivideAssign,
    RemainderAssign,
    AddAssign,
    SubtractAssign,
    ShiftLeftAssign,
    ShiftRightAssign,
    ShiftRightUnsignedAssign,
    BitAndAssign,
    BitXorAssign,
    BitOrAssign,
}

/// A literal (7.8). A number is whole and at most 9007199254740991.
#[derive(Debug, Drop)]
pub enum Literal5 {
    Null,
    Truth(bool),
    Integer(u64),
    Text(Units),
}

/// The name of a property in an object literal (11.1.5).
#[derive(Debug, Drop)]
pub enum Key5 {
    WordKey(Name),
    TextKey(Units),
    IntegerKey(u64),
}
