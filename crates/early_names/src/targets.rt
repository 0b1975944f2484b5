//! What an expression is as a target (12.14.1 and the rules that it cites), groups included.

ghost use Rattle.std.specs.Prelude.{◌≡◌, map};
ghost use Rattle.es6_ast.specs.Targets.{ends_in_access};
ghost use Rattle.es6_static_semantics.specs.Early.{expression_found, link_found};

use crate::names::PlacedName;
use es6_ast::{Expression, Link};

/// The name that an expression is.
pub fn name_of<'a>(expression: &'a Expression) -> Option<PlacedName<'a>>
    ensures { result ≡ (expression_found expression.now).target.name }
{
    match expression {
        Expression::Name { span, name } => Some(PlacedName::new(*span, name.bytes())),
        Expression::Group { held, .. } => name_of(held.get()),
        _ => None,
    }
}

/// Whether an expression is a simple target.
pub fn is_simple(expression: &Expression) -> bool
    ensures { result ≡ (expression_found expression.now).target.simple }
{
    match expression {
        Expression::Name { .. } | Expression::SuperMember { .. } | Expression::SuperIndex { .. } =>
            true,
        Expression::Chain { links, .. } => ends_in_access(links.as_slice()),
        Expression::Group { held, .. } => is_simple(held.get()),
        _ => false,
    }
}

/// Where an expression begins.
pub fn begin_of(expression: &Expression) -> u32
    ensures { result ≡ (expression_found expression.now).target.begin }
{
    match expression {
        Expression::This { span }
        | Expression::Name { span, .. }
        | Expression::Literal { span, .. }
        | Expression::ArrayList { span, .. }
        | Expression::ObjectList { span, .. }
        | Expression::Chain { span, .. }
        | Expression::SuperMember { span, .. }
        | Expression::SuperIndex { span, .. }
        | Expression::SuperCall { span, .. }
        | Expression::NewTarget { span }
        | Expression::New { span, .. }
        | Expression::Update { span, .. }
        | Expression::Unary { span, .. }
        | Expression::Power { span, .. }
        | Expression::Binary { span, .. }
        | Expression::Conditional { span, .. }
        | Expression::Assign { span, .. }
        | Expression::Sequence { span, .. }
        | Expression::Yield { span, .. }
        | Expression::Delegate { span, .. }
        | Expression::Group { span, .. }
        | Expression::Cover { span, .. } => span.begin,
        Expression::Template(template) => template.span.begin,
        Expression::Function(function) => function.get().span.begin,
        Expression::Arrow(arrow) => arrow.get().span.begin,
        Expression::Class(class) => class.get().span.begin,
    }
}

/// Whether the last link is an access to a property (12.3).
pub(crate) fn ends_in_access(links: &[Link]) -> bool
    ensures { result ≡ ends_in_access (map (λ l. l.access) (map link_found links.now)) }
{
    match links.last() {
        None => false,
        Some(link) => is_access(link),
    }
}

fn is_access(link: &Link) -> bool
    ensures { result ≡ (link_found link.now).access }
{
    match link {
        Link::Member { .. } | Link::Index { .. } => true,
        Link::Call { .. } | Link::Tagged(_) => false,
    }
}
