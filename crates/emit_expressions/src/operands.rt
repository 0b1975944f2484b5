//! What operators stand between or before (ECMA-262, 5.1 edition, 11.3 to 11.14): operators of one level side by side, and the parts
//! of a sequence too.

ghost use Rattle.std.specs.Prelude.{◌≡◌, ◌∷◌, ◌++◌, [], IfOk};
ghost use Rattle.emission_rules.specs.Nodes.{assigned, first_level, nowhere, operand, operated, stored, then};
ghost use Rattle.es5_ast.specs.declared.tree.Expr5.TheVariants as expr;

use crate::leaves::nowhere;
use es_text::Span;
use es5_ast::{AssignOperator5, BinaryOperator5, Expr5, Operand5, UnaryOperator5, UpdateOperator5};
use es5_cursor::binary_level;
use es5_nodes::expressions;
use es5_nodes::lists::{push, push_operand};
use sqlite_items::{Boxed, Items};
use std::alloc::{AllocError, Global};

/// The level of the first operator, and 0 where there is none.
fn first_level(rest: &[Operand5]) -> u8
    ensures { result ≡ first_level rest.now }
{
    match rest {
        [] => 0,
        [first, ..] => binary_level(first.operator),
    }
}

fn binary(
    alloc: Global,
    span: Span,
    first: Boxed<Expr5>,
    rest: Items<Operand5>,
) -> Result<Boxed<Expr5>, AllocError>
    ensures { IfOk result (λ x. x ≡ expr.Binary span first rest) }
{
    Boxed::new(alloc, Expr5::Binary { span, first, rest })
}

/// One operand more behind these.
fn operand_added(
    alloc: Global,
    span: Span,
    first: Boxed<Expr5>,
    rest: Items<Operand5>,
    operator: BinaryOperator5,
    more: Boxed<Expr5>,
) -> Result<Boxed<Expr5>, AllocError>
    ensures { IfOk result (λ x. x ≡ expr.Binary span first (rest ++ operand operator more ∷ [])) }
{
    let mut rest = rest;
    push_operand(&mut rest, operator, more)?;
    binary(alloc, span, first, rest)
}

/// The first operator of a level.
fn operated_first(
    alloc: Global,
    value: Boxed<Expr5>,
    operator: BinaryOperator5,
    more: Boxed<Expr5>,
) -> Result<Boxed<Expr5>, AllocError>
    ensures { IfOk result (λ x. x ≡ expr.Binary nowhere value (operand operator more ∷ [])) }
{
    operand_added(alloc, nowhere(), value, Items::new(alloc), operator, more)
}

#[tactic(auto, unfolding(emission_rules::specs::Nodes::operated))]
fn operated_behind(
    alloc: Global,
    span: Span,
    first: Boxed<Expr5>,
    rest: Items<Operand5>,
    operator: BinaryOperator5,
    more: Boxed<Expr5>,
) -> Result<Boxed<Expr5>, AllocError>
    ensures { IfOk result (λ x. x ≡ operated (expr.Binary span first rest) operator more) }
{
    if first_level(rest.as_slice()) == binary_level(operator) {
        return operand_added(alloc, span, first, rest, operator, more);
    }
    let value = binary(alloc, span, first, rest)?;
    operated_first(alloc, value, operator, more)
}

/// The operator between the two.
#[tactic(auto, unfolding(emission_rules::specs::Nodes::operated))]
pub fn operated(
    alloc: Global,
    value: Boxed<Expr5>,
    operator: BinaryOperator5,
    more: Boxed<Expr5>,
) -> Result<Boxed<Expr5>, AllocError>
    ensures { IfOk result (λ x. x ≡ operated value operator more) }
{
    match value.into_inner() {
        Expr5::Binary { span, first, rest } => operated_behind(
            alloc, span, first, rest, operator, more,
        ),
        value => operated_first(alloc, Boxed::new(alloc, value)?, operator, more),
    }
}

/// One part more behind these.
fn part_added(
    alloc: Global,
    span: Span,
    first: Boxed<Expr5>,
    rest: Items<Expr5>,
    more: Boxed<Expr5>,
) -> Result<Boxed<Expr5>, AllocError>
    ensures { IfOk result (λ x. x ≡ expr.Sequence span first (rest ++ more ∷ [])) }
{
    let mut rest = rest;
    push(&mut rest, more)?;
    Boxed::new(alloc, Expr5::Sequence { span, first, rest })
}

/// The first two parts.
pub(crate) fn paired(
    alloc: Global,
    value: Boxed<Expr5>,
    more: Boxed<Expr5>,
) -> Result<Boxed<Expr5>, AllocError>
    ensures { IfOk result (λ x. x ≡ expr.Sequence nowhere value (more ∷ [])) }
{
    part_added(alloc, nowhere(), value, Items::new(alloc), more)
}

/// The one, and then the other.
#[tactic(auto, unfolding(emission_rules::specs::Nodes::then))]
pub fn then(
    alloc: Global,
    value: Boxed<Expr5>,
    more: Boxed<Expr5>,
) -> Result<Boxed<Expr5>, AllocError>
    ensures { IfOk result (λ x. x ≡ then value more) }
{
    match value.into_inner() {
        Expr5::Sequence { span, first, rest } => part_added(alloc, span, first, rest, more),
        value => paired(alloc, Boxed::new(alloc, value)?, more),
    }
}

/// An assignment with this operator.
pub fn assigned(
    alloc: Global,
    operator: AssignOperator5,
    target: Boxed<Expr5>,
    value: Boxed<Expr5>,
) -> Result<Boxed<Expr5>, AllocError>
    ensures { IfOk result (λ x. x ≡ assigned operator target value) }
{
    Ok(expressions::assign(alloc, nowhere(), operator, target, value)?.into_value())
}

/// An assignment.
pub fn stored(
    alloc: Global,
    target: Boxed<Expr5>,
    value: Boxed<Expr5>,
) -> Result<Boxed<Expr5>, AllocError>
    ensures { IfOk result (λ x. x ≡ stored target value) }
{
    assigned(alloc, AssignOperator5::Assign, target, value)
}

/// An operator before a value.
pub fn unary(
    alloc: Global,
    operator: UnaryOperator5,
    operand: Boxed<Expr5>,
) -> Result<Boxed<Expr5>, AllocError>
    ensures { IfOk result (λ x. x ≡ expr.Unary nowhere operator operand) }
{
    Ok(expressions::unary(alloc, nowhere(), operator, operand)?.into_value())
}

pub(crate) fn update(
    alloc: Global,
    operator: UpdateOperator5,
    target: Boxed<Expr5>,
) -> Result<Boxed<Expr5>, AllocError>
    ensures { IfOk result (λ x. x ≡ expr.Update nowhere operator target) }
{
    Ok(expressions::update(alloc, nowhere(), operator, target)?.into_value())
}

/// A choice.
pub fn conditional(
    alloc: Global,
    test: Boxed<Expr5>,
    yes: Boxed<Expr5>,
    no: Boxed<Expr5>,
) -> Result<Boxed<Expr5>, AllocError>
    ensures { IfOk result (λ x. x ≡ expr.Conditional nowhere test yes no) }
{
    Ok(expressions::conditional(alloc, nowhere(), test, yes, no)?.into_value())
}
