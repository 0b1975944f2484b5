//! Whether an expression is a target by itself.

ghost use Rattle.std.specs.Prelude.{◌≡◌, map};
ghost use Rattle.es6_ast.specs.Targets.{ends_in_access};
ghost use Rattle.es6_reading.specs.Refine.{alone, bound, is_access, simple};
ghost use Rattle.es6_refine.specs.Fitting.{fit_of};

use crate::fit::Fit;
use es6_ast::{Expression, Link};

/// A name, where names are bound (13.3.3).
pub fn bound_fit(expression: &Expression) -> Fit
    ensures { result ≡ fit_of (bound expression.now) }
{
    match expression {
        Expression::Name { .. } => Fit::Fits,
        _ => Fit::Misfit {
            at: expression.span().begin,
        },
    }
}

fn is_access(link: &Link) -> bool
    ensures { result ≡ is_access link.now }
{
    match link {
        Link::Member { .. } | Link::Index { .. } => true,
        Link::Call { .. } | Link::Tagged(_) => false,
    }
}

fn ends_in_access(links: &[Link]) -> bool
    ensures { result ≡ ends_in_access (map is_access links.now) }
{
    match links.last() {
        None => false,
        Some(link) => is_access(link),
    }
}

/// A simple target, where something is assigned (12.14.1), with groups in one another down to the depth.
pub fn simple_fit(depth: u32, expression: &Expression) -> Fit
    ensures { result ≡ fit_of (simple depth expression.now) }
{
    if depth == 0 {
        return Fit::TooNested;
    }
    match expression {
        Expression::Name { .. } | Expression::SuperMember { .. } | Expression::SuperIndex { .. } =>
            Fit::Fits,
        Expression::Chain { span, links, .. } => Fit::fits_if(
            ends_in_access(links.as_slice()),
            span.begin,
        ),
        Expression::Group { span, held } => simple_fit(depth - 1, held.get()).held_at(span.begin),
        _ => Fit::Misfit {
            at: expression.span().begin,
        },
    }
}

/// The expression by itself, as a target.
pub fn alone_fit(binds: bool, depth: u32, expression: &Expression) -> Fit
    ensures { result ≡ fit_of (alone binds depth expression.now) }
{
    if binds {
        bound_fit(expression)
    } else {
        simple_fit(depth, expression)
    }
}
