//! The walk through expressions and functions (ECMA-262, 5.1 edition, 11 and 13).

ghost use Rattle.std.specs.Prelude.{◌≡◌, None, map};
ghost use Rattle.std.specs.Option.{option_map};
ghost use Rattle.core_ast.specs.declared.parts.CoreOp.TheVariants as op;
ghost use Rattle.script_lowering.specs.Expressions.{adds_each, adds_operand, adds_part, conditional, site_by, with_parts};
ghost use Rattle.script_lowering.specs.Gathering.{Gathers};
ghost use Rattle.script_lowering.specs.Makers.{joined};
ghost use Rattle.script_lowering.specs.Nodes.{element_read, expr_read, link_read, operand_read, property_read, whole_read};
ghost use Rattle.script_lowering.specs.Reading.{reads_each, reads_one, reads_perhaps};

use crate::functions::function_head;
use crate::gathered::Gathered;
use crate::makers::{
    Join, closure, conditional, defined, getter, hole, joined, literal, member, setter, stepped,
    unary, with_parts,
};
use crate::operators::update_of;
use crate::sites::{Sites, site_by};
use crate::walk::body;
use core_ast::{CoreExpr, CoreHead, CoreOp, FunctionId, expression, variable};
use es_text::Span;
use es5_ast::{Element5, Expr5, Function5, Link5, Operand5, Property5};
use sqlite_items::{Boxed, Items};
use std::alloc::{AllocError, Global};

#[cycle(walk)]
pub(crate) fn expr<'a>(
    alloc: Global,
    sites: Sites,
    source: &'a Expr5,
    reading: &mut Gathered<'a>,
) -> Result<CoreExpr, AllocError>
    ensures { Gathers result reading.new (expr_read sites source.now reading.old) }
{
    match source {
        Expr5::This { .. } => Ok(expression(alloc, CoreHead::This)),
        Expr5::Name { name, .. } => Ok(variable(alloc, reading.named(name.bytes())?)),
        Expr5::Literal {
            literal: source,
            ..
        } => literal(alloc, source),
        Expr5::ArrayList { elements: list, .. } => {
            let begun = expression(alloc, CoreHead::ArrayList);
            elements(alloc, sites, list.as_slice(), begun, reading)
        }
        Expr5::ObjectList {
            properties: list,
            ..
        } => {
            let begun = expression(alloc, CoreHead::ObjectList);
            properties(alloc, sites, list.as_slice(), begun, reading)
        }
        Expr5::Function(source) => {
            Ok(closure(alloc, function(alloc, sites, source.get(), true, reading)?))
        }
        Expr5::Chain {
            span,
            head,
            links: list,
        } => {
            let begun = expr(alloc, sites, head.get(), reading)?;
            links(alloc, sites, list.as_slice(), *span, begun, reading)
        }
        Expr5::New {
            span,
            callee,
            arguments,
        } => {
            let callee = expr(alloc, sites, callee.get(), reading)?;
            made(alloc, sites, arguments.as_slice(), *span, callee, reading)
        }
        Expr5::Update {
            operator,
            target,
            ..
        } => {
            let target = expr(alloc, sites, target.get(), reading)?;
            stepped(alloc, target, update_of(*operator))
        }
        Expr5::Unary {
            operator,
            operand,
            ..
        } => {
            let operand = expr(alloc, sites, operand.get(), reading)?;
            unary(alloc, *operator, operand)
        }
        Expr5::Binary { first, rest, .. } => {
            let begun = expr(alloc, sites, first.get(), reading)?;
            operands(alloc, sites, rest.as_slice(), begun, reading)
        }
        Expr5::Conditional { test, yes, no, .. } => {
            let test = expr(alloc, sites, test.get(), reading)?;
            let yes = boxed(alloc, sites, yes.get(), reading)?;
            choice(alloc, sites, no.get(), test, yes, reading)
        }
        Expr5::Assign {
            operator,
            target,
            value,
            ..
        } => {
            let target = expr(alloc, sites, target.get(), reading)?;
            join(
                alloc,
                sites,
                value.get(),
                Join::Assign(*operator),
                target,
                reading,
            )
        }
        Expr5::Sequence { first, rest, .. } => {
            let begun = expr(alloc, sites, first.get(), reading)?;
            parts(alloc, sites, rest.as_slice(), begun, reading)
        }
    }
}

/// A value joined to the one before it.
#[cycle(walk)]
fn join<'a>(
    alloc: Global,
    sites: Sites,
    source: &'a Expr5,
    how: Join,
    before: CoreExpr,
    reading: &mut Gathered<'a>,
) -> Result<CoreExpr, AllocError>
    ensures { Gathers result reading.new (reads_one (expr_read sites source.now) (joined how before) reading.old) }
{
    let value = expr(alloc, sites, source, reading)?;
    joined(alloc, how, before, value)
}

#[cycle(walk)]
fn boxed<'a>(
    alloc: Global,
    sites: Sites,
    source: &'a Expr5,
    reading: &mut Gathered<'a>,
) -> Result<Boxed<CoreExpr>, AllocError>
    ensures { Gathers result reading.new (expr_read sites source.now reading.old) }
{
    let value = expr(alloc, sites, source, reading)?;
    Boxed::new(alloc, value)
}

/// 11.12, behind the test and the first branch.
#[cycle(walk)]
fn choice<'a>(
    alloc: Global,
    sites: Sites,
    source: &'a Expr5,
    test: CoreExpr,
    yes: Boxed<CoreExpr>,
    reading: &mut Gathered<'a>,
) -> Result<CoreExpr, AllocError>
    ensures { Gathers result reading.new (reads_one (expr_read sites source.now) (conditional test yes) reading.old) }
{
    let no = boxed(alloc, sites, source, reading)?;
    conditional(test, yes, no)
}

#[cycle(walk)]
fn exprs<'a>(
    alloc: Global,
    sites: Sites,
    source: &'a [Expr5],
    reading: &mut Gathered<'a>,
) -> Result<Items<CoreExpr>, AllocError>
    ensures { Gathers result reading.new (reads_each (map (expr_read sites) source.now) reading.old) }
{
    let mut made = Items::new(alloc);
    for one in source {
        made.push(expr(alloc, sites, one, reading)?)?;
    }
    Ok(made)
}

/// `new` behind its callee, for an expression with this span (11.2.2).
#[cycle(walk)]
fn made<'a>(
    alloc: Global,
    sites: Sites,
    source: &'a [Expr5],
    span: Span,
    callee: CoreExpr,
    reading: &mut Gathered<'a>,
) -> Result<CoreExpr, AllocError>
    ensures { Gathers result reading.new (reads_one (reads_each (map (expr_read sites) source.now)) (with_parts op.New (site_by sites span None) callee) reading.old) }
{
    let arguments = exprs(alloc, sites, source, reading)?;
    with_parts(CoreOp::New, site_by(sites, span, None), callee, arguments)
}

/// The elements of an array literal (11.1.4).
#[cycle(walk)]
fn elements<'a>(
    alloc: Global,
    sites: Sites,
    source: &'a [Element5],
    begun: CoreExpr,
    reading: &mut Gathered<'a>,
) -> Result<CoreExpr, AllocError>
    ensures { Gathers result reading.new (adds_each (map (element_read sites) source.now) begun reading.old) }
{
    let mut value = begun;
    for one in source {
        value = element(alloc, sites, one, value, reading)?;
    }
    Ok(value)
}

#[cycle(walk)]
fn element<'a>(
    alloc: Global,
    sites: Sites,
    source: &'a Element5,
    list: CoreExpr,
    reading: &mut Gathered<'a>,
) -> Result<CoreExpr, AllocError>
    ensures { Gathers result reading.new (element_read sites source.now list reading.old) }
{
    match source {
        Element5::Hole => hole(alloc, list),
        Element5::Element(value) => join(alloc, sites, value, Join::Element, list, reading),
    }
}

/// The properties of an object literal (11.1.5).
#[cycle(walk)]
fn properties<'a>(
    alloc: Global,
    sites: Sites,
    source: &'a [Property5],
    begun: CoreExpr,
    reading: &mut Gathered<'a>,
) -> Result<CoreExpr, AllocError>
    ensures { Gathers result reading.new (adds_each (map (property_read sites) source.now) begun reading.old) }
{
    let mut value = begun;
    for one in source {
        value = property(alloc, sites, one, value, reading)?;
    }
    Ok(value)
}

#[cycle(walk)]
fn property<'a>(
    alloc: Global,
    sites: Sites,
    source: &'a Property5,
    object: CoreExpr,
    reading: &mut Gathered<'a>,
) -> Result<CoreExpr, AllocError>
    ensures { Gathers result reading.new (property_read sites source.now object reading.old) }
{
    match source {
        Property5::Plain { key, value, .. } => {
            let value = expr(alloc, sites, value, reading)?;
            defined(alloc, object, &key.key, value)
        }
        Property5::Getter {
            key,
            function: source,
            ..
        } => {
            let made = function(alloc, sites, source.get(), true, reading)?;
            getter(alloc, object, &key.key, made)
        }
        Property5::Setter {
            key,
            function: source,
            ..
        } => {
            let made = function(alloc, sites, source.get(), true, reading)?;
            setter(alloc, object, &key.key, made)
        }
    }
}

/// Accesses and calls, of a chain with this span (11.2).
#[cycle(walk)]
fn links<'a>(
    alloc: Global,
    sites: Sites,
    source: &'a [Link5],
    span: Span,
    begun: CoreExpr,
    reading: &mut Gathered<'a>,
) -> Result<CoreExpr, AllocError>
    ensures { Gathers result reading.new (adds_each (map (λ l. l span) (map (link_read sites) source.now)) begun reading.old) }
{
    let mut value = begun;
    for one in source {
        value = link(alloc, sites, one, span, value, reading)?;
    }
    Ok(value)
}

#[cycle(walk)]
fn link<'a>(
    alloc: Global,
    sites: Sites,
    source: &'a Link5,
    span: Span,
    value: CoreExpr,
    reading: &mut Gathered<'a>,
) -> Result<CoreExpr, AllocError>
    ensures { Gathers result reading.new (link_read sites source.now span value reading.old) }
{
    match source {
        Link5::Member { name, .. } => member(alloc, value, name),
        Link5::Index { index, .. } => join(alloc, sites, index, Join::Index, value, reading),
        Link5::Call {
            arguments,
            site,
            ..
        } => {
            let arguments = exprs(alloc, sites, arguments.as_slice(), reading)?;
            with_parts(CoreOp::Call, site_by(sites, span, *site), value, arguments)
        }
    }
}

/// 11.5 to 11.11
#[cycle(walk)]
fn operands<'a>(
    alloc: Global,
    sites: Sites,
    source: &'a [Operand5],
    begun: CoreExpr,
    reading: &mut Gathered<'a>,
) -> Result<CoreExpr, AllocError>
    ensures { Gathers result reading.new (adds_each (map adds_operand (map (operand_read sites) source.now)) begun reading.old) }
{
    let mut value = begun;
    for one in source {
        let how = Join::Operand(one.operator);
        value = join(alloc, sites, &one.value, how, value, reading)?;
    }
    Ok(value)
}

/// 11.14
#[cycle(walk)]
fn parts<'a>(
    alloc: Global,
    sites: Sites,
    source: &'a [Expr5],
    begun: CoreExpr,
    reading: &mut Gathered<'a>,
) -> Result<CoreExpr, AllocError>
    ensures { Gathers result reading.new (adds_each (map adds_part (map (expr_read sites) source.now)) begun reading.old) }
{
    let mut value = begun;
    for one in source {
        value = join(alloc, sites, one, Join::Then, value, reading)?;
    }
    Ok(value)
}

/// An expression that may be left out.
#[cycle(walk)]
pub(crate) fn optional<'a>(
    alloc: Global,
    sites: Sites,
    source: &'a Option<Expr5>,
    reading: &mut Gathered<'a>,
) -> Result<Option<CoreExpr>, AllocError>
    ensures { Gathers result reading.new (reads_perhaps (option_map (expr_read sites) source.now) reading.old) }
{
    match source {
        None => Ok(None),
        Some(source) => Ok(Some(expr(alloc, sites, source, reading)?)),
    }
}

/// A function, which goes into the table (13).
#[cycle(walk)]
pub(crate) fn function<'a>(
    alloc: Global,
    sites: Sites,
    source: &'a Function5,
    is_expression: bool,
    reading: &mut Gathered<'a>,
) -> Result<FunctionId, AllocError>
    ensures { Gathers result reading.new ((whole_read sites source.now).reads is_expression reading.old) }
{
    let parameters = source.parameters.as_slice();
    let head = function_head(alloc, &source.name, parameters, is_expression, reading)?;
    let outside = reading.enter(alloc);
    let body = body(alloc, sites, source.body.as_slice(), reading)?;
    reading.leave(alloc, outside, head, body)
}
