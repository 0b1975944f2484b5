//! Operators, literals and keys (ECMA-262, 5.1 edition, 7.8 and 11).

ghost use Rattle.std.specs.Prelude.{◌≡◌, IfOk};
ghost use Rattle.script_lowering.specs.Expressions.{binary_of, compound_of, key_of, literal_of, unary_of, update_of};

use core_ast::{Binary, Constant, Key, Unary, Update};
use es5_ast::{AssignOperator5, BinaryOperator5, Key5, Literal5, UnaryOperator5, UpdateOperator5};
use std::alloc::{AllocError, Global};

/// An operator before its operand; `delete` is none.
pub(crate) fn unary_of(operator: UnaryOperator5) -> Unary
    ensures { result ≡ unary_of operator }
{
    match operator {
        UnaryOperator5::Typeof => Unary::Typeof,
        UnaryOperator5::Plus => Unary::Plus,
        UnaryOperator5::Minus => Unary::Minus,
        UnaryOperator5::BitNot => Unary::BitNot,
        UnaryOperator5::Not => Unary::Not,
        UnaryOperator5::Void | UnaryOperator5::Delete => Unary::Void,
    }
}

pub(crate) fn update_of(operator: UpdateOperator5) -> Update
    ensures { result ≡ update_of operator }
{
    match operator {
        UpdateOperator5::IncrementBefore => Update::IncrementBefore,
        UpdateOperator5::DecrementBefore => Update::DecrementBefore,
        UpdateOperator5::IncrementAfter => Update::IncrementAfter,
        UpdateOperator5::DecrementAfter => Update::DecrementAfter,
    }
}

/// An operator between two values; `||` and `&&` are none.
pub(crate) fn binary_of(operator: BinaryOperator5) -> Binary
    ensures { result ≡ binary_of operator }
{
    match operator {
        BinaryOperator5::BitOr => Binary::BitOr,
        BinaryOperator5::BitXor => Binary::BitXor,
        BinaryOperator5::BitAnd => Binary::BitAnd,
        BinaryOperator5::Equal => Binary::Equal,
        BinaryOperator5::NotEqual => Binary::NotEqual,
        BinaryOperator5::Same => Binary::Same,
        BinaryOperator5::NotSame => Binary::NotSame,
        BinaryOperator5::Less => Binary::Less,
        BinaryOperator5::Greater => Binary::Greater,
        BinaryOperator5::AtMost => Binary::AtMost,
        BinaryOperator5::AtLeast => Binary::AtLeast,
        BinaryOperator5::InstanceOf => Binary::InstanceOf,
        BinaryOperator5::In => Binary::In,
        BinaryOperator5::ShiftLeft => Binary::ShiftLeft,
        BinaryOperator5::ShiftRight => Binary::ShiftRight,
        BinaryOperator5::ShiftRightUnsigned => Binary::ShiftRightUnsigned,
        BinaryOperator5::Subtract => Binary::Subtract,
        BinaryOperator5::Multiply => Binary::Multiply,
        BinaryOperator5::Divide => Binary::Divide,
        BinaryOperator5::Remainder => Binary::Remainder,
        BinaryOperator5::Add | BinaryOperator5::Or | BinaryOperator5::And => Binary::Add,
    }
}

/// The operator before the `=`, where there is one (11.13).
pub(crate) fn compound_of(operator: AssignOperator5) -> Option<Binary>
    ensures { result ≡ compound_of operator }
{
    match operator {
        AssignOperator5::Assign => None,
        AssignOperator5::MultiplyAssign => Some(Binary::Multiply),
        AssignOperator5::DivideAssign => Some(Binary::Divide),
        AssignOperator5::RemainderAssign => Some(Binary::Remainder),
        AssignOperator5::AddAssign => Some(Binary::Add),
        AssignOperator5::SubtractAssign => Some(Binary::Subtract),
        AssignOperator5::ShiftLeftAssign => Some(Binary::ShiftLeft),
        AssignOperator5::ShiftRightAssign => Some(Binary::ShiftRight),
        AssignOperator5::ShiftRightUnsignedAssign => Some(Binary::ShiftRightUnsigned),
        AssignOperator5::BitAndAssign => Some(Binary::BitAnd),
        AssignOperator5::BitXorAssign => Some(Binary::BitXor),
        AssignOperator5::BitOrAssign => Some(Binary::BitOr),
    }
}

/// 7.8
pub(crate) fn literal_of(alloc: Global, literal: &Literal5) -> Result<Constant, AllocError>
    ensures { IfOk result (λ c. c ≡ literal_of literal.now) }
{
    match literal {
        Literal5::Null => Ok(Constant::Null),
        Literal5::Truth(truth) => Ok(Constant::Truth(*truth)),
        Literal5::Integer(value) => Ok(Constant::Integer(*value)),
        Literal5::Text(units) => Ok(Constant::Text(units.copy(alloc)?)),
    }
}

/// 11.1.5
pub(crate) fn key_of(alloc: Global, key: &Key5) -> Result<Key, AllocError>
    ensures { IfOk result (λ k. k ≡ key_of key.now) }
{
    match key {
        Key5::WordKey(word) => Ok(Key::WordKey(word.copy(alloc)?)),
        Key5::TextKey(units) => Ok(Key::TextKey(units.copy(alloc)?)),
        Key5::IntegerKey(value) => Ok(Key::IntegerKey(*value)),
    }
}
