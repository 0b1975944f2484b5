//! Operators as scripts have them (ECMA-262, 5.1 edition, 11.3 to 11.13).

ghost use Rattle.std.specs.Prelude.{◌≡◌};
ghost use Rattle.emission_rules.specs.Expressions.{assign_operator, binary_operator, unary_operator, update_operator};

use core_ast::{Binary, Unary, Update};
use es5_ast::{AssignOperator5, BinaryOperator5, UnaryOperator5, UpdateOperator5};

#[tactic(auto, unfolding(emission_rules::specs::Expressions::binary_operator))]
pub(crate) fn binary_operator(operator: Binary) -> BinaryOperator5
    ensures { result ≡ binary_operator operator }
{
    match operator {
        Binary::BitOr => BinaryOperator5::BitOr,
        Binary::BitXor => BinaryOperator5::BitXor,
        Binary::BitAnd => BinaryOperator5::BitAnd,
        Binary::Equal => BinaryOperator5::Equal,
        Binary::NotEqual => BinaryOperator5::NotEqual,
        Binary::Same => BinaryOperator5::Same,
        Binary::NotSame => BinaryOperator5::NotSame,
        Binary::Less => BinaryOperator5::Less,
        Binary::Greater => BinaryOperator5::Greater,
        Binary::AtMost => BinaryOperator5::AtMost,
        Binary::AtLeast => BinaryOperator5::AtLeast,
        Binary::InstanceOf => BinaryOperator5::InstanceOf,
        Binary::In => BinaryOperator5::In,
        Binary::ShiftLeft => BinaryOperator5::ShiftLeft,
        Binary::ShiftRight => BinaryOperator5::ShiftRight,
        Binary::ShiftRightUnsigned => BinaryOperator5::ShiftRightUnsigned,
        Binary::Add => BinaryOperator5::Add,
        Binary::Subtract => BinaryOperator5::Subtract,
        Binary::Multiply => BinaryOperator5::Multiply,
        Binary::Divide => BinaryOperator5::Divide,
        Binary::Remainder => BinaryOperator5::Remainder,
    }
}

/// The assignment operator with this operator, and `=` for a comparison, which has none (11.13.2).
#[tactic(auto, unfolding(emission_rules::specs::Expressions::assign_operator))]
pub(crate) fn assign_operator(operator: Binary) -> AssignOperator5
    ensures { result ≡ assign_operator operator }
{
    match operator {
        Binary::BitOr => AssignOperator5::BitOrAssign,
        Binary::BitXor => AssignOperator5::BitXorAssign,
        Binary::BitAnd => AssignOperator5::BitAndAssign,
        Binary::ShiftLeft => AssignOperator5::ShiftLeftAssign,
        Binary::ShiftRight => AssignOperator5::ShiftRightAssign,
        Binary::ShiftRightUnsigned => AssignOperator5::ShiftRightUnsignedAssign,
        Binary::Add => AssignOperator5::AddAssign,
        Binary::Subtract => AssignOperator5::SubtractAssign,
        Binary::Multiply => AssignOperator5::MultiplyAssign,
        Binary::Divide => AssignOperator5::DivideAssign,
        Binary::Remainder => AssignOperator5::RemainderAssign,
        _ => AssignOperator5::Assign,
    }
}

#[tactic(auto, unfolding(emission_rules::specs::Expressions::unary_operator))]
pub(crate) fn unary_operator(operator: Unary) -> UnaryOperator5
    ensures { result ≡ unary_operator operator }
{
    match operator {
        Unary::Void => UnaryOperator5::Void,
        Unary::Typeof => UnaryOperator5::Typeof,
        Unary::Plus => UnaryOperator5::Plus,
        Unary::Minus => UnaryOperator5::Minus,
        Unary::BitNot => UnaryOperator5::BitNot,
        Unary::Not => UnaryOperator5::Not,
    }
}

#[tactic(auto, unfolding(emission_rules::specs::Expressions::update_operator))]
pub(crate) fn update_operator(operator: Update) -> UpdateOperator5
    ensures { result ≡ update_operator operator }
{
    match operator {
        Update::IncrementBefore => UpdateOperator5::IncrementBefore,
        Update::DecrementBefore => UpdateOperator5::DecrementBefore,
        Update::IncrementAfter => UpdateOperator5::IncrementAfter,
        Update::DecrementAfter => UpdateOperator5::DecrementAfter,
    }
}
