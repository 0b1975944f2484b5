//! Whether an expression is a target, or a part of a pattern, with literals and groups in one another down to a depth. The mark
//! `binds` says that the targets are names that are bound (13.3.3), and not targets of an assignment (12.14.5).

ghost use Rattle.std.specs.Prelude.{◌≡◌};
ghost use Rattle.es6_ast.specs.declared.tree.Element.{out-Element};
ghost use Rattle.es6_ast.specs.declared.tree.Pattern.{out-Pattern};
ghost use Rattle.es6_ast.specs.declared.tree.Property.{out-Property};
ghost use Rattle.es6_reading.specs.Refine.{array_parts_of, element_part, object_parts_of, property_part, refine, refine_pattern, target_of_default};
ghost use Rattle.es6_refine.specs.Fitting.{fit_of, part_of};

use crate::binds::pattern_binds;
use crate::fit::Fit;
use crate::places::{alone_fit, bound_fit};
use es6_ast::{Argument, AssignOperator, Element, Expression, Pattern, Property};

/// Whether an expression is a pattern that is assigned, with literals and groups in one another down to the depth.
#[tactic(auto, unfolding(es6_reading::specs::Refine::refine_pattern))]
pub fn is_pattern(depth: u32, expression: &Expression) -> Fit
    ensures { result ≡ fit_of (refine_pattern depth expression.now) }
{
    target_fit(false, depth, expression)
}

#[cycle(fits)]
fn target_fit(binds: bool, depth: u32, expression: &Expression) -> Fit
    ensures { result ≡ fit_of (refine binds depth expression.now) }
{
    if depth == 0 {
        return Fit::TooNested;
    }
    match expression {
        Expression::ArrayList {
            elements,
            ends_in_comma,
            ..
        } => elements_fit(binds, depth - 1, elements.as_slice(), *ends_in_comma),
        Expression::ObjectList { properties, .. } => properties_fit(
            binds,
            depth - 1,
            properties.as_slice(),
        ),
        _ => alone_fit(binds, depth - 1, expression),
    }
}

/// A target that may have a default.
#[cycle(fits)]
pub fn part_fit(binds: bool, depth: u32, expression: &Expression) -> Fit
    ensures { result ≡ fit_of (part_of binds depth expression.now) }
{
    match expression {
        Expression::Assign {
            operator: AssignOperator::Assign,
            target,
            ..
        } => default_fit(binds, depth, target),
        _ => target_fit(binds, depth, expression),
    }
}

/// What stands before a default.
#[cycle(fits)]
fn default_fit(binds: bool, depth: u32, pattern: &Pattern) -> Fit
    ensures { result ≡ fit_of (target_of_default binds depth (refine binds depth) pattern.now (out-Pattern pattern.now)) }
{
    if binds {
        return pattern_binds(depth, pattern);
    }
    match pattern {
        Pattern::Target(target) => target_fit(binds, depth, target.get()),
        Pattern::ArrayPattern { .. } | Pattern::ObjectPattern { .. } => Fit::Fits,
    }
}

#[cycle(fits)]
fn elements_fit(binds: bool, depth: u32, elements: &[Element], ends_in_comma: bool) -> Fit
    ensures { result ≡ fit_of (array_parts_of binds ends_in_comma (refine binds depth) (part_of binds depth) elements.now) }
{
    for (index, element) in elements.iter().enumerate() {
        let may_rest = (index + 1 == elements.len()) & !ends_in_comma;
        let fit = element_fit(binds, depth, element, may_rest);
        if !fit.fits() {
            return fit;
        }
    }
    Fit::Fits
}

/// An element, which may be a spread where a rest may stand.
#[cycle(fits)]
fn element_fit(binds: bool, depth: u32, element: &Element, may_rest: bool) -> Fit
    ensures { result ≡ fit_of (element_part binds may_rest (refine binds depth) (part_of binds depth) (out-Element element.now)) }
{
    match element {
        Element::Hole => Fit::Fits,
        Element::Present(Argument::Single(value)) => part_fit(binds, depth, value),
        Element::Present(Argument::Spread { span, value }) => {
            if !may_rest {
                Fit::Misfit { at: span.begin }
            } else if binds {
                bound_fit(value)
            } else {
                target_fit(binds, depth, value)
            }
        }
    }
}

#[cycle(fits)]
fn properties_fit(binds: bool, depth: u32, properties: &[Property]) -> Fit
    ensures { result ≡ fit_of (object_parts_of (part_of binds depth) properties.now) }
{
    for property in properties {
        let fit = property_fit(binds, depth, property);
        if !fit.fits() {
            return fit;
        }
    }
    Fit::Fits
}

#[cycle(fits)]
fn property_fit(binds: bool, depth: u32, property: &Property) -> Fit
    ensures { result ≡ fit_of (property_part (part_of binds depth) (out-Property property.now)) }
{
    match property {
        Property::Plain { value, .. } => part_fit(binds, depth, value),
        Property::Shorthand { .. } | Property::Initialized { .. } => Fit::Fits,
        Property::Defined(method) => Fit::Misfit {
            at: method.span.begin,
        },
    }
}
