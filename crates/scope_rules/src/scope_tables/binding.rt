//! Bindings.

ghost use Rattle.std.specs.Prelude.{◌≡◌, IfOk};
ghost use Rattle.scope_rules.specs.scope_tables.Scoping.{binding_at, declared_in_loop, declaring_scope};

use crate::Kind;
use crate::scope_tables::place::Place;
use shared_text::Name;
use std::alloc::{AllocError, Global};

/// A name that a scope declares, and where it is declared first.
#[derive(Drop)]
pub struct Binding {
    pub name: Name,
    pub kind: Kind,
    /// where the name begins, an offset in bytes
    pub at: u32,
    /// where its declarator ends, with pattern and initializer
    pub end: u32,
    /// the scope's number
    pub scope: usize,
    /// whether the scope stands in a loop of its function, the loop's head included
    pub in_loop: bool,
}

/// The scope in which a name of a kind is declared at a place.
pub(crate) fn declaring_scope(kind: Kind, place: Place) -> usize
    ensures { result ≡ declaring_scope kind place }
{
    match kind {
        Kind::Variable => place.variables,
        _ => place.scope,
    }
}

/// Whether that scope stands in a loop of its function.
fn declared_in_loop(kind: Kind, place: Place) -> bool
    ensures { result ≡ declared_in_loop kind place }
{
    match kind {
        Kind::Variable => false,
        _ => place.in_loop,
    }
}

/// A name that is declared at a place.
pub(crate) fn binding_at(
    alloc: Global,
    kind: Kind,
    name: &[u8],
    at: u32,
    end: u32,
    place: Place,
) -> Result<Binding, AllocError>
    ensures { IfOk result (λ binding. binding ≡ binding_at kind name.now at end place) }
{
    Ok(Binding {
        name: Name::of_bytes(alloc, name)?,
        kind,
        at,
        end,
        scope: declaring_scope(kind, place),
        in_loop: declared_in_loop(kind, place),
    })
}
