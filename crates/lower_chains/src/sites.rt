//! Whether what is reached has a place already: of the calls of a chain only the first has one.

ghost use Rattle.std.specs.Prelude.{◌≡◌};
ghost use Rattle.module_lowering.specs.Expressions.{has_site, is_sited, reached_sited};

use core_ast::{CoreExpr, CoreLink};
use lowering_rules::reference_rules::Reached;

fn has_site(link: &CoreLink) -> bool
    ensures { result ≡ has_site link.now }
{
    match link {
        CoreLink::Strict { site, .. } => site.is_some(),
        CoreLink::Lazy { .. } | CoreLink::Run { .. } => false,
    }
}

/// Whether one of the links of an expression has a place.
pub(crate) fn is_sited(expression: &CoreExpr) -> bool
    ensures { result ≡ is_sited expression.now }
{
    let links = expression.links.as_slice();
    for link in links {
        if has_site(link) {
            return true;
        }
    }
    false
}

/// The same of what an expression comes to.
#[tactic(auto, unfolding(module_lowering::specs::Expressions::reached_sited))]
pub(crate) fn reached_sited(reached: &Reached) -> bool
    ensures { result ≡ reached_sited reached.now }
{
    match reached {
        Reached::Value(value) => is_sited(value),
        Reached::Variable { .. } => false,
        Reached::Property { object, .. } => is_sited(object),
        Reached::Inherited { value, .. } => is_sited(value),
    }
}
