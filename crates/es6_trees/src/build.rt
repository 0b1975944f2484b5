//! Builds patterns of expressions, with literals in one another down to a depth. That an expression fits is found out before: of
//! what doesn't, anything may be built, or nothing.

ghost use Rattle.std.specs.Prelude.{IfOk};
ghost use Rattle.es6_trees.specs.Built.{AreArrayPartsOf, AreObjectPartsOf, IsArrayPartOf, IsObjectPartOf, IsPartOf, IsPatternOf, IsTargetOf};

use crate::made::{
    Unbuilt, add, array_pattern, keyed_part, object_pattern, part, rest_part, single_part,
};
use crate::names::{named, target_alone};
use crate::split::{Split, without_default};
use es6_ast::{
    Argument, ArrayPart, Element, Expression, Identifier, ObjectPart, Part, Pattern, Property,
};
use sqlite_items::Items;
use std::alloc::Global;

#[cycle(build)]
pub fn pattern_of(alloc: Global, depth: u32, expression: Expression) -> Result<Pattern, Unbuilt>
    ensures { IfOk result (λ pattern. IsPatternOf depth expression pattern) }
{
    if depth == 0 {
        return Err(Unbuilt::Unfit);
    }
    match expression {
        Expression::ArrayList { span, elements, .. } => array_pattern(
            span,
            array_parts_of(alloc, depth - 1, elements),
        ),
        Expression::ObjectList { span, properties } => object_pattern(
            span,
            object_parts_of(alloc, depth - 1, properties),
        ),
        alone => target_alone(alloc, alone),
    }
}

/// What stands before a default.
#[cycle(build)]
fn target_of(alloc: Global, depth: u32, pattern: Pattern) -> Result<Pattern, Unbuilt>
    ensures { IfOk result (λ target. IsTargetOf depth pattern target) }
{
    match pattern {
        Pattern::Target(target) => pattern_of(alloc, depth, target.into_inner()),
        literal => Ok(literal),
    }
}

#[cycle(build)]
pub fn part_of(alloc: Global, depth: u32, expression: Expression) -> Result<Part, Unbuilt>
    ensures { IfOk result (λ part. IsPartOf depth expression part) }
{
    match without_default(expression) {
        Split::Defaulted {
            span,
            target,
            value,
        } => part(span, target_of(alloc, depth, target), Some(value)),
        Split::Alone(expression) => {
            let span = expression.span();
            part(span, pattern_of(alloc, depth, expression), None)
        }
    }
}

#[cycle(build)]
fn array_parts_of(
    alloc: Global,
    depth: u32,
    elements: Items<Element>,
) -> Result<Items<ArrayPart>, Unbuilt>
    ensures { IfOk result (λ parts. AreArrayPartsOf depth elements parts) }
{
    let mut left = elements;
    let mut parts = Vec::new(alloc);
    'taking: while let Some(element) = left.pop() {
        add(&mut parts, array_part_of(alloc, depth, element))?;
    }
    parts.reverse();
    Ok(Items::from_vec(parts))
}

#[cycle(build)]
fn array_part_of(alloc: Global, depth: u32, element: Element) -> Result<ArrayPart, Unbuilt>
    ensures { IfOk result (λ part. IsArrayPartOf depth element part) }
{
    match element {
        Element::Hole => Ok(ArrayPart::SkippedPart),
        Element::Present(Argument::Single(value)) => single_part(part_of(alloc, depth, value)),
        Element::Present(Argument::Spread { span, value }) => rest_part(
            span,
            pattern_of(alloc, depth, value),
        ),
    }
}

#[cycle(build)]
fn object_parts_of(
    alloc: Global,
    depth: u32,
    properties: Items<Property>,
) -> Result<Items<ObjectPart>, Unbuilt>
    ensures { IfOk result (λ parts. AreObjectPartsOf depth properties parts) }
{
    let mut left = properties;
    let mut parts = Vec::new(alloc);
    'taking: while let Some(property) = left.pop() {
        add(&mut parts, object_part_of(alloc, depth, property))?;
    }
    parts.reverse();
    Ok(Items::from_vec(parts))
}

#[cycle(build)]
fn object_part_of(alloc: Global, depth: u32, property: Property) -> Result<ObjectPart, Unbuilt>
    ensures { IfOk result (λ part. IsObjectPartOf depth property part) }
{
    match property {
        Property::Plain { span, key, value } => keyed_part(span, key, part_of(alloc, depth, value)),
        Property::Shorthand { span, name } => named(alloc, span, Identifier { span, name }, None),
        Property::Initialized {
            span,
            name,
            value,
            ..
        } => named(alloc, span, name, Some(value)),
        // A method is no part of a pattern.
        Property::Defined(_) => Err(Unbuilt::Unfit),
    }
}
