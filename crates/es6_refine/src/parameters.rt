//! Whether an expression is an arrow's parameters (14.2): a name, or what parentheses hold.

ghost use Rattle.std.specs.Prelude.{◌≡◌, ◌∷◌};
ghost use Rattle.es6_reading.specs.Refine.{parameters_of, parts_of, refine_parameters};
ghost use Rattle.es6_refine.specs.Fitting.{fit_of};

use crate::fit::Fit;
use crate::targets::part_fit;
use es6_ast::Expression;

/// Whether expressions between commas are parameters, with literals and groups in one another down to the depth.
pub fn parameters_fit(depth: u32, first: &Expression, more: &[Expression]) -> Fit
    ensures { result ≡ fit_of (parameters_of depth (first.now ∷ more.now)) }
{
    let fit = part_fit(true, depth, first);
    if !fit.fits() {
        return fit;
    }
    more_fit(depth, more)
}

fn more_fit(depth: u32, expressions: &[Expression]) -> Fit
    ensures { result ≡ fit_of (parameters_of depth expressions.now) }
{
    for expression in expressions {
        let fit = part_fit(true, depth, expression);
        if !fit.fits() {
            return fit;
        }
    }
    Fit::Fits
}

/// The same of what parentheses hold.
fn held_fit(depth: u32, held: &Expression) -> Fit
    ensures { result ≡ fit_of (parameters_of depth (parts_of held.now)) }
{
    match held {
        Expression::Sequence { first, rest, .. } => parameters_fit(
            depth,
            first.get(),
            rest.as_slice(),
        ),
        _ => parameters_fit(depth, held, &[]),
    }
}

/// Whether a name or parentheses are parameters.
#[tactic(auto, unfolding(es6_reading::specs::Refine::refine_parameters))]
pub fn are_parameters(depth: u32, expression: &Expression) -> Fit
    ensures { result ≡ fit_of (refine_parameters depth expression.now) }
{
    match expression {
        Expression::Name { .. } => Fit::Fits,
        Expression::Group { held, .. } => held_fit(depth, held.get()),
        Expression::Cover { held: None, .. } => Fit::Fits,
        Expression::Cover {
            held: Some(held),
            rest: Some(_),
            ..
        } => held_fit(depth, held.get()),
        _ => Fit::Misfit {
            at: expression.span().begin,
        },
    }
}
