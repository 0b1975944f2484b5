//! Expressions (ECMA-262, 5.1 edition, 11).

ghost use Rattle.std.specs.Prelude.{◌≡◌, IfOk};
ghost use Rattle.es5_reading.specs.Expressions.{chained, left, operated, other};

use crate::read::Read;
use es_text::Span;
use es5_ast::{
    AssignOperator5, Element5, Expr5, Function5, Link5, Literal5, Operand5, Property5,
    UnaryOperator5, UpdateOperator5,
};
use sqlite_items::{Boxed, Items};
use std::alloc::{AllocError, Global};

/// 11.1.1
#[inline(never)]
pub fn this(alloc: Global, span: Span) -> Result<Read, AllocError>
    ensures { IfOk result (λ x. x ≡ left (Expr5.This span)) }
{
    Ok(Read::left(Boxed::new(alloc, Expr5::This { span })?))
}

/// 11.1.3
#[inline(never)]
pub fn literal(alloc: Global, span: Span, literal: Literal5) -> Result<Read, AllocError>
    ensures { IfOk result (λ x. x ≡ left (Expr5.Literal span literal)) }
{
    Ok(Read::left(Boxed::new(alloc, Expr5::Literal { span, literal })?))
}

/// 11.1.4
#[inline(never)]
pub fn array(alloc: Global, span: Span, elements: Items<Element5>) -> Result<Read, AllocError>
    ensures { IfOk result (λ x. x ≡ left (Expr5.ArrayList span elements)) }
{
    Ok(Read::left(Boxed::new(alloc, Expr5::ArrayList { span, elements })?))
}

/// 11.1.5
#[inline(never)]
pub fn object(alloc: Global, span: Span, properties: Items<Property5>) -> Result<Read, AllocError>
    ensures { IfOk result (λ x. x ≡ left (Expr5.ObjectList span properties)) }
{
    Ok(Read::left(Boxed::new(alloc, Expr5::ObjectList { span, properties })?))
}

/// 13
#[inline(never)]
pub fn function(alloc: Global, function: Boxed<Function5>) -> Result<Read, AllocError>
    ensures { IfOk result (λ x. x ≡ left (Expr5.Function function)) }
{
    Ok(Read::left(Boxed::new(alloc, Expr5::Function(function))?))
}

/// 11.2.2
#[inline(never)]
pub fn new(
    alloc: Global,
    span: Span,
    callee: Boxed<Expr5>,
    arguments: Items<Expr5>,
) -> Result<Read, AllocError>
    ensures { IfOk result (λ x. x ≡ left (Expr5.New span callee arguments)) }
{
    Ok(Read::left(Boxed::new(
        alloc,
        Expr5::New {
            span,
            callee,
            arguments,
        },
    )?))
}

/// What accesses and calls begin with, and these, if there are any (11.2).
#[inline(never)]
pub fn chain(alloc: Global, span: Span, head: Read, links: Items<Link5>) -> Result<Read, AllocError>
    ensures { IfOk result (λ x. x ≡ chained head links span) }
{
    if links.is_empty() {
        return Ok(head);
    }
    Ok(Read::left(Boxed::new(
        alloc,
        Expr5::Chain {
            span,
            head: head.into_value(),
            links,
        },
    )?))
}

/// 11.3, 11.4.4, 11.4.5
#[inline(never)]
pub fn update(
    alloc: Global,
    span: Span,
    operator: UpdateOperator5,
    target: Boxed<Expr5>,
) -> Result<Read, AllocError>
    ensures { IfOk result (λ x. x ≡ other (Expr5.Update span operator target)) }
{
    Ok(Read::other(Boxed::new(
        alloc,
        Expr5::Update {
            span,
            operator,
            target,
        },
    )?))
}

/// 11.4
#[inline(never)]
pub fn unary(
    alloc: Global,
    span: Span,
    operator: UnaryOperator5,
    operand: Boxed<Expr5>,
) -> Result<Read, AllocError>
    ensures { IfOk result (λ x. x ≡ other (Expr5.Unary span operator operand)) }
{
    Ok(Read::other(Boxed::new(
        alloc,
        Expr5::Unary {
            span,
            operator,
            operand,
        },
    )?))
}

/// An operand, and the operators of one level after it, if there are any (11.5 to 11.11).
#[inline(never)]
pub fn binary(
    alloc: Global,
    span: Span,
    first: Read,
    rest: Items<Operand5>,
) -> Result<Read, AllocError>
    ensures { IfOk result (λ x. x ≡ operated first rest span) }
{
    if rest.is_empty() {
        return Ok(first);
    }
    Ok(Read::other(Boxed::new(
        alloc,
        Expr5::Binary {
            span,
            first: first.into_value(),
            rest,
        },
    )?))
}

/// 11.12
#[inline(never)]
pub fn conditional(
    alloc: Global,
    span: Span,
    test: Boxed<Expr5>,
    yes: Boxed<Expr5>,
    no: Boxed<Expr5>,
) -> Result<Read, AllocError>
    ensures { IfOk result (λ x. x ≡ other (Expr5.Conditional span test yes no)) }
{
    Ok(Read::other(Boxed::new(
        alloc,
        Expr5::Conditional {
            span,
            test,
            yes,
            no,
        },
    )?))
}

/// 11.13
#[inline(never)]
pub fn assign(
    alloc: Global,
    span: Span,
    operator: AssignOperator5,
    target: Boxed<Expr5>,
    value: Boxed<Expr5>,
) -> Result<Read, AllocError>
    ensures { IfOk result (λ x. x ≡ other (Expr5.Assign span operator target value)) }
{
    Ok(Read::other(Boxed::new(
        alloc,
        Expr5::Assign {
            span,
            operator,
            target,
            value,
        },
    )?))
}

/// 11.14
#[inline(never)]
pub fn sequence(
    alloc: Global,
    span: Span,
    first: Boxed<Expr5>,
    rest: Items<Expr5>,
) -> Result<Read, AllocError>
    ensures { IfOk result (λ x. x ≡ other (Expr5.Sequence span first rest)) }
{
    Ok(Read::other(Boxed::new(alloc, Expr5::Sequence { span, first, rest })?))
}
