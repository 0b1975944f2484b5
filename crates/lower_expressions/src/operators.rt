//! Operators and literals, and what operators make of values (ECMA-262, 6th edition, 12.2.4 and 12.4 to 12.14).

ghost use Rattle.std.specs.Prelude.{◌≡◌, None, Some, IfOk};
ghost use Rattle.core_ast.specs.Made.{acting, act, linked};
ghost use Rattle.core_ast.specs.declared.parts.CoreOp.TheVariants as op;
ghost use Rattle.core_ast.specs.declared.parts.When.TheVariants.{Choice};
ghost use Rattle.core_ast.specs.declared.tree.CoreLink.TheVariants as link;
ghost use Rattle.module_lowering.specs.Expressions.{binary_of, compound_of, constant_of, operand_link, or_undefined, unary_value, update_of};
ghost use Rattle.lowering_rules.specs.reference_rules.References.{value_of};

use core_ast::{
    Binary, Constant, CoreExpr, CoreLink, CoreOp, Unary, Update, When, act, acting, linked,
    undefined,
};
use es6_ast::{AssignOperator, BinaryOperator, Literal, UnaryOperator, UpdateOperator};
use lower_references::{lower_deleted, value_of};
use lower_walk::whole;
use lowering_rules::reference_rules::{Compound, Reached};
use sqlite_items::Boxed;
use std::alloc::{AllocError, Global};

/// The constant that a literal is.
pub(crate) fn constant_of(alloc: Global, literal: &Literal) -> Result<Constant, AllocError>
    ensures { IfOk result (λ c. c ≡ constant_of literal.now) }
{
    match literal {
        Literal::Null => Ok(Constant::Null),
        Literal::Truth(truth) => Ok(Constant::Truth(*truth)),
        Literal::Integer(value) => Ok(Constant::Integer(whole(*value))),
        Literal::Text(units) => Ok(Constant::Text(units.copy(alloc)?)),
    }
}

/// An operator before the value of its operand.
fn plain_unary(alloc: Global, operator: Unary, operand: Reached) -> Result<CoreExpr, AllocError>
    ensures { IfOk result (λ x. x ≡ linked (value_of operand) (act (op.Unary operator))) }
{
    let value = value_of(alloc, operand)?;
    linked(value, act(alloc, CoreOp::Unary(operator)))
}

/// An operator before its operand, of which `delete` doesn't take the value (12.5).
pub(crate) fn unary_value(
    alloc: Global,
    operator: UnaryOperator,
    operand: Reached,
) -> Result<CoreExpr, AllocError>
    ensures { IfOk result (λ x. x ≡ unary_value operator operand) }
{
    match operator {
        UnaryOperator::Delete => lower_deleted(alloc, operand),
        UnaryOperator::Void => plain_unary(alloc, Unary::Void, operand),
        UnaryOperator::Typeof => plain_unary(alloc, Unary::Typeof, operand),
        UnaryOperator::Plus => plain_unary(alloc, Unary::Plus, operand),
        UnaryOperator::Minus => plain_unary(alloc, Unary::Minus, operand),
        UnaryOperator::BitNot => plain_unary(alloc, Unary::BitNot, operand),
        UnaryOperator::Not => plain_unary(alloc, Unary::Not, operand),
    }
}

/// An operator between two values; of `||` and `&&`, which are no such operators, that of their bits.
fn binary_of(operator: BinaryOperator) -> Binary
    ensures { result ≡ binary_of operator }
{
    match operator {
        BinaryOperator::Or | BinaryOperator::BitOr => Binary::BitOr,
        BinaryOperator::And | BinaryOperator::BitAnd => Binary::BitAnd,
        BinaryOperator::BitXor => Binary::BitXor,
        BinaryOperator::Equal => Binary::Equal,
        BinaryOperator::NotEqual => Binary::NotEqual,
        BinaryOperator::Same => Binary::Same,
        BinaryOperator::NotSame => Binary::NotSame,
        BinaryOperator::Less => Binary::Less,
        BinaryOperator::Greater => Binary::Greater,
        BinaryOperator::AtMost => Binary::AtMost,
        BinaryOperator::AtLeast => Binary::AtLeast,
        BinaryOperator::InstanceOf => Binary::InstanceOf,
        BinaryOperator::In => Binary::In,
        BinaryOperator::ShiftLeft => Binary::ShiftLeft,
        BinaryOperator::ShiftRight => Binary::ShiftRight,
        BinaryOperator::ShiftRightUnsigned => Binary::ShiftRightUnsigned,
        BinaryOperator::Add => Binary::Add,
        BinaryOperator::Subtract => Binary::Subtract,
        BinaryOperator::Multiply => Binary::Multiply,
        BinaryOperator::Divide => Binary::Divide,
        BinaryOperator::Remainder => Binary::Remainder,
    }
}

/// What is evaluated only where the value before it is such a one.
fn lazy_link(alloc: Global, when: When, value: CoreExpr) -> Result<CoreLink, AllocError>
    ensures { IfOk result (λ l. l ≡ link.Lazy when value None) }
{
    let yes = Boxed::new(alloc, value)?;
    Ok(CoreLink::Lazy {
        when,
        yes,
        no: None,
    })
}

/// An operator with the value behind it (12.6 to 12.12).
pub(crate) fn operand_link(
    alloc: Global,
    operator: BinaryOperator,
    value: CoreExpr,
) -> Result<CoreLink, AllocError>
    ensures { IfOk result (λ l. l ≡ operand_link operator value) }
{
    match operator {
        BinaryOperator::Or => lazy_link(alloc, When::Falsy, value),
        BinaryOperator::And => lazy_link(alloc, When::Truthy, value),
        _ => acting(alloc, CoreOp::Operator(binary_of(operator)), value),
    }
}

/// One of two values (12.13).
pub(crate) fn chosen(
    alloc: Global,
    test: CoreExpr,
    yes: CoreExpr,
    no: CoreExpr,
) -> Result<CoreExpr, AllocError>
    ensures { IfOk result (λ x. x ≡ linked test (link.Lazy Choice yes (Some no))) }
{
    let yes = Boxed::new(alloc, yes)?;
    let no = Some(Boxed::new(alloc, no)?);
    let when = When::Choice;
    linked(test, CoreLink::Lazy { when, yes, no })
}

/// A value that may be left out.
#[tactic(auto, unfolding(module_lowering::specs::Expressions::or_undefined))]
pub(crate) fn or_undefined(alloc: Global, value: Option<CoreExpr>) -> CoreExpr
    ensures { result ≡ or_undefined value }
{
    match value {
        None => undefined(alloc),
        Some(value) => value,
    }
}

pub(crate) fn update_of(operator: UpdateOperator) -> Update
    ensures { result ≡ update_of operator }
{
    match operator {
        UpdateOperator::IncrementBefore => Update::IncrementBefore,
        UpdateOperator::DecrementBefore => Update::DecrementBefore,
        UpdateOperator::IncrementAfter => Update::IncrementAfter,
        UpdateOperator::DecrementAfter => Update::DecrementAfter,
    }
}

/// The operator before the `=`, where there is one (12.14).
pub(crate) fn compound_of(operator: AssignOperator) -> Option<Compound>
    ensures { result ≡ compound_of operator }
{
    match operator {
        AssignOperator::Assign => None,
        AssignOperator::MultiplyAssign => Some(Compound::Operates(Binary::Multiply)),
        AssignOperator::DivideAssign => Some(Compound::Operates(Binary::Divide)),
        AssignOperator::RemainderAssign => Some(Compound::Operates(Binary::Remainder)),
        AssignOperator::AddAssign => Some(Compound::Operates(Binary::Add)),
        AssignOperator::SubtractAssign => Some(Compound::Operates(Binary::Subtract)),
        AssignOperator::ShiftLeftAssign => Some(Compound::Operates(Binary::ShiftLeft)),
        AssignOperator::ShiftRightAssign => Some(Compound::Operates(Binary::ShiftRight)),
        AssignOperator::ShiftRightUnsignedAssign => {
            Some(Compound::Operates(Binary::ShiftRightUnsigned))
        }
        AssignOperator::BitAndAssign => Some(Compound::Operates(Binary::BitAnd)),
        AssignOperator::BitXorAssign => Some(Compound::Operates(Binary::BitXor)),
        AssignOperator::BitOrAssign => Some(Compound::Operates(Binary::BitOr)),
        AssignOperator::PowerAssign => Some(Compound::Powers),
    }
}
