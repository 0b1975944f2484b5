//! The first part of an expression that no AssignmentPattern spells (12.14.5), as an offset in bytes from 0.

ghost use Rattle.std.specs.Prelude.{◌≡◌, map};
ghost use Rattle.es6_ast.specs.Targets.{elements_misfit, first_misfit};
ghost use Rattle.es6_static_semantics.specs.Early.{element_found, expression_found, pattern_found, property_found};
ghost use Rattle.early_names.specs.Misfits.{element_misfit};

use crate::targets::{begin_of, ends_in_access, is_simple};
use es6_ast::{Argument, AssignOperator, Element, Expression, Pattern, Property};

/// Of a target without a default of its own.
#[cycle(misfits)]
pub fn target_misfit(expression: &Expression) -> Option<u32>
    ensures { result ≡ (expression_found expression.now).target.target_misfit }
{
    match expression {
        Expression::Name { .. } | Expression::SuperMember { .. } | Expression::SuperIndex { .. } =>
            None,
        Expression::Chain { span, links, .. } => {
            if ends_in_access(links.as_slice()) {
                None
            } else {
                Some(span.begin)
            }
        }
        Expression::ArrayList {
            elements,
            ends_in_comma,
            ..
        } => elements_misfit(elements.as_slice(), *ends_in_comma),
        Expression::ObjectList { properties, .. } => properties_misfit(properties.as_slice()),
        Expression::Group { span, held } => {
            if is_simple(held.get()) {
                None
            } else {
                Some(span.begin)
            }
        }
        _ => Some(begin_of(expression)),
    }
}

/// Of a target that may have a default.
#[cycle(misfits)]
fn part_misfit(expression: &Expression) -> Option<u32>
    ensures { result ≡ (expression_found expression.now).target.part_misfit }
{
    match expression {
        Expression::Assign {
            span,
            operator,
            target,
            ..
        } => match operator {
            AssignOperator::Assign => pattern_misfit(target),
            _ => Some(span.begin),
        },
        _ => target_misfit(expression),
    }
}

#[cycle(misfits)]
fn pattern_misfit(pattern: &Pattern) -> Option<u32>
    ensures { result ≡ (pattern_found pattern.now).misfit }
{
    match pattern {
        Pattern::Target(target) => target_misfit(target.get()),
        Pattern::ArrayPattern { .. } | Pattern::ObjectPattern { .. } => None,
    }
}

#[cycle(misfits)]
fn elements_misfit(elements: &[Element], ends_in_comma: bool) -> Option<u32>
    ensures { result ≡ elements_misfit ends_in_comma (map (λ e. e.element) (map element_found elements.now)) }
{
    for (index, element) in elements.iter().enumerate() {
        let is_rest = (index + 1 == elements.len()) & !ends_in_comma;
        if let Some(at) = element_misfit(element, is_rest) {
            return Some(at);
        }
    }
    None
}

/// Of an element, which may be a spread where a rest may stand.
#[cycle(misfits)]
fn element_misfit(element: &Element, is_rest: bool) -> Option<u32>
    ensures { result ≡ element_misfit is_rest (element_found element.now).element }
{
    match element {
        Element::Hole => None,
        Element::Present(Argument::Single(value)) => part_misfit(value),
        Element::Present(Argument::Spread { span, value }) => {
            if is_rest {
                target_misfit(value)
            } else {
                Some(span.begin)
            }
        }
    }
}

#[cycle(misfits)]
fn properties_misfit(properties: &[Property]) -> Option<u32>
    ensures { result ≡ first_misfit (map (λ p. p.misfit) (map property_found properties.now)) }
{
    for property in properties {
        if let Some(at) = property_misfit(property) {
            return Some(at);
        }
    }
    None
}

#[cycle(misfits)]
fn property_misfit(property: &Property) -> Option<u32>
    ensures { result ≡ (property_found property.now).misfit }
{
    match property {
        Property::Plain { value, .. } => part_misfit(value),
        Property::Shorthand { .. } | Property::Initialized { .. } => None,
        Property::Defined(method) => Some(method.span.begin),
    }
}
