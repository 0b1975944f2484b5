//! Expressions (ECMA-262, 6th edition, 12).

ghost use Rattle.std.specs.Prelude.{◌≡◌, ◌++◌, map, OnOk};
ghost use Rattle.std.specs.Option.{option_map};
ghost use Rattle.es6_static_semantics.specs.Findings.{joined, maybe};
ghost use Rattle.scope_rules.specs.Marks.{argument_marked, element_marked, expression_marked, link_marked, operand_marked, template_marked, template_part_marked};

use crate::functions::{arrow, class, own_function};
use crate::objects::properties;
use crate::patterns::targets;
use es6_ast::{Argument, Element, Expression, Link, Operand, Template, TemplatePart};
use scope_heads::refer_name;
use scope_rules::{Marks, Role};
use sqlite_items::Boxed;
use std::alloc::AllocError;

#[cycle(walk)]
pub(crate) fn expression<'a>(marks: &mut Marks<'a>, node: &'a Expression) -> Result<(), AllocError>
    ensures { OnOk result (marks.new ≡ marks.old ++ (expression_marked node.now).marks) }
{
    match node {
        Expression::This { .. }
        | Expression::Literal { .. }
        | Expression::NewTarget { .. }
        | Expression::SuperMember { .. } => Ok(()),
        Expression::Name { span, name } => refer_name(marks, name, span.begin),
        Expression::Template(template_) => template(marks, template_),
        Expression::ArrayList { elements: list, .. } => elements(marks, list.as_slice()),
        Expression::ObjectList {
            properties: list,
            ..
        } => properties(marks, list.as_slice()),
        Expression::Function(function) => own_function(marks, function.get()),
        Expression::Arrow(arrow_) => arrow(marks, arrow_.get()),
        Expression::Class(class_) => class(marks, class_.get()),
        Expression::Chain {
            head,
            links: list,
            ..
        } => {
            expression(marks, head.get())?;
            links(marks, list.as_slice())
        }
        Expression::SuperIndex { index, .. } => expression(marks, index.get()),
        Expression::SuperCall {
            arguments: list,
            ..
        } => arguments(marks, list.as_slice()),
        Expression::New {
            callee,
            arguments: list,
            ..
        } => {
            expression(marks, callee.get())?;
            arguments(marks, list.as_slice())
        }
        Expression::Update { target, .. } => expression(marks, target.get()),
        Expression::Unary { operand, .. } => expression(marks, operand.get()),
        Expression::Power { base, exponent, .. } => {
            expression(marks, base.get())?;
            expression(marks, exponent.get())
        }
        Expression::Binary { first, rest, .. } => {
            expression(marks, first.get())?;
            operands(marks, rest.as_slice())
        }
        Expression::Conditional { test, yes, no, .. } => {
            expression(marks, test.get())?;
            expression(marks, yes.get())?;
            expression(marks, no.get())
        }
        Expression::Assign { target, value, .. } => {
            targets(marks, target, Role::Assigned)?;
            expression(marks, value.get())
        }
        Expression::Sequence { first, rest, .. } => {
            expression(marks, first.get())?;
            expressions(marks, rest.as_slice())
        }
        Expression::Yield { value, .. } => optional_boxed(marks, value),
        Expression::Delegate { value, .. } => expression(marks, value.get()),
        Expression::Group { held, .. } => expression(marks, held.get()),
        Expression::Cover { held, .. } => optional_boxed(marks, held),
    }
}

#[cycle(walk)]
pub(crate) fn optional<'a>(
    marks: &mut Marks<'a>,
    value: &'a Option<Expression>,
) -> Result<(), AllocError>
    ensures { OnOk result (marks.new ≡ marks.old ++ maybe (λ y. y.marks) (option_map expression_marked value.now)) }
{
    match value {
        None => Ok(()),
        Some(value) => expression(marks, value),
    }
}

#[cycle(walk)]
pub(crate) fn optional_boxed<'a>(
    marks: &mut Marks<'a>,
    value: &'a Option<Boxed<Expression>>,
) -> Result<(), AllocError>
    ensures { OnOk result (marks.new ≡ marks.old ++ maybe (λ y. y.marks) (option_map expression_marked value.now)) }
{
    match value {
        None => Ok(()),
        Some(value) => expression(marks, value.get()),
    }
}

#[cycle(walk)]
fn expressions<'a>(marks: &mut Marks<'a>, expressions: &'a [Expression]) -> Result<(), AllocError>
    ensures { OnOk result (marks.new ≡ marks.old ++ joined (λ x. x.marks) (map expression_marked expressions.now)) }
{
    for value in expressions {
        expression(marks, value)?;
    }
    Ok(())
}

#[cycle(walk)]
fn elements<'a>(marks: &mut Marks<'a>, elements: &'a [Element]) -> Result<(), AllocError>
    ensures { OnOk result (marks.new ≡ marks.old ++ joined (λ e. e) (map element_marked elements.now)) }
{
    for item in elements {
        element(marks, item)?;
    }
    Ok(())
}

#[cycle(walk)]
fn element<'a>(marks: &mut Marks<'a>, item: &'a Element) -> Result<(), AllocError>
    ensures { OnOk result (marks.new ≡ marks.old ++ element_marked item.now) }
{
    match item {
        Element::Hole => Ok(()),
        Element::Present(value) => argument(marks, value),
    }
}

#[cycle(walk)]
fn arguments<'a>(marks: &mut Marks<'a>, arguments: &'a [Argument]) -> Result<(), AllocError>
    ensures { OnOk result (marks.new ≡ marks.old ++ joined (λ a. a) (map argument_marked arguments.now)) }
{
    for item in arguments {
        argument(marks, item)?;
    }
    Ok(())
}

#[cycle(walk)]
fn argument<'a>(marks: &mut Marks<'a>, item: &'a Argument) -> Result<(), AllocError>
    ensures { OnOk result (marks.new ≡ marks.old ++ argument_marked item.now) }
{
    match item {
        Argument::Single(value) | Argument::Spread { value, .. } => expression(marks, value),
    }
}

/// Accesses and calls (12.3).
#[cycle(walk)]
fn links<'a>(marks: &mut Marks<'a>, links: &'a [Link]) -> Result<(), AllocError>
    ensures { OnOk result (marks.new ≡ marks.old ++ joined (λ l. l) (map link_marked links.now)) }
{
    for item in links {
        link(marks, item)?;
    }
    Ok(())
}

#[cycle(walk)]
fn link<'a>(marks: &mut Marks<'a>, item: &'a Link) -> Result<(), AllocError>
    ensures { OnOk result (marks.new ≡ marks.old ++ link_marked item.now) }
{
    match item {
        Link::Member { .. } => Ok(()),
        Link::Index { index, .. } => expression(marks, index),
        Link::Call {
            arguments: list,
            ..
        } => arguments(marks, list.as_slice()),
        Link::Tagged(tag) => template(marks, tag),
    }
}

#[cycle(walk)]
#[tactic(auto, using(crate::proofs::Layers::operand_out))]
fn operands<'a>(marks: &mut Marks<'a>, operands: &'a [Operand]) -> Result<(), AllocError>
    ensures { OnOk result (marks.new ≡ marks.old ++ joined (λ o. o) (map operand_marked operands.now)) }
{
    for operand in operands {
        expression(marks, &operand.value)?;
    }
    Ok(())
}

#[cycle(walk)]
#[tactic(auto, using(crate::proofs::Layers::template_out))]
fn template<'a>(marks: &mut Marks<'a>, literal: &'a Template) -> Result<(), AllocError>
    ensures { OnOk result (marks.new ≡ marks.old ++ template_marked literal.now) }
{
    template_parts(marks, literal.rest.as_slice())
}

#[cycle(walk)]
#[tactic(auto, using(crate::proofs::Layers::template_part_out))]
fn template_parts<'a>(
    marks: &mut Marks<'a>,
    template_parts: &'a [TemplatePart],
) -> Result<(), AllocError>
    ensures { OnOk result (marks.new ≡ marks.old ++ joined (λ p. p) (map template_part_marked template_parts.now)) }
{
    for part in template_parts {
        expression(marks, &part.value)?;
    }
    Ok(())
}
