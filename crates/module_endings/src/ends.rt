//! Which places are ends.

ghost use Rattle.std.specs.Prelude.{◌≡◌, ℕ, IfOk, MatchBool, MatchOption, Some, slice_get};
ghost use Rattle.es6_ast.specs.declared.graph.EndOf.{EndOf};
ghost use Rattle.module_endings.specs.Ends.{IsEnding};

use crate::place::{Home, Place};
use es6_ast::EndOf;
use shared_text::Name;
use std::alloc::{AllocError, Global};

/// The end that a place is.
pub(crate) fn end_at(
    alloc: Global,
    hosts: &[Name],
    place: &Place,
) -> Result<Option<EndOf>, AllocError>
    ensures { IfOk result (λ r. MatchOption r ((end : EndOf) → IsEnding hosts.now place.now end → ⊥) (λ end. IsEnding hosts.now place.now end)) }
{
    match place.home {
        Home::Nowhere | Home::Module(_) => Ok(None),
        Home::OfHosts => match host_position(hosts, &place.name) {
            None => Ok(None),
            Some(index) => Ok(Some(EndOf::Host { index })),
        },
        Home::Binding(module) => {
            let name = place.name.copy(alloc)?;
            Ok(Some(EndOf::Local { module, name }))
        }
    }
}

/// Whether a place is an end.
pub(crate) fn is_end(hosts: &[Name], place: &Place) -> bool
    ensures { MatchBool result ((end : EndOf) × IsEnding hosts.now place.now end) ((end : EndOf) → IsEnding hosts.now place.now end → ⊥) }
{
    match place.home {
        Home::Nowhere | Home::Module(_) => false,
        Home::OfHosts => match host_position(hosts, &place.name) {
            None => false,
            Some(_) => true,
        },
        Home::Binding(_) => true,
    }
}

/// The first host of a name.
fn host_position(hosts: &[Name], name: &Name) -> Option<usize>
    ensures { MatchOption result ((k : ℕ) → slice_get hosts.now k ≡ Some name.now → ⊥) (λ k. slice_get hosts.now k ≡ Some name.now) }
{
    for (index, host) in hosts.iter().enumerate() {
        if host.is(name.bytes()) {
            return Some(index);
        }
    }
    None
}
