//! References.

ghost use Rattle.std.specs.Prelude.{◌≡◌, Some};
ghost use Rattle.scope_rules.specs.scope_tables.Scoping.{bound_reference, free_reference, is_certain, is_counted};

use crate::scope_tables::binding::Binding;
use crate::scope_tables::place::Place;
use crate::{Kind, Spelling};

/// The binding that a name finds, by its number, and the place of its scope.
#[derive(Clone, Copy, Debug, PartialEq, Eq)]
pub struct Found {
    pub number: usize,
    pub place: Place,
}

/// A reference by name.
#[derive(Drop)]
pub struct Reference<'a> {
    pub name: Spelling<'a>,
    /// where the name begins, an offset in bytes
    pub at: u32,
    /// the binding that it finds, by its number: none where the name is global
    pub binding: Option<usize>,
    /// whether it stands in a function inside the binding's scope
    pub is_captured: bool,
    /// whether the binding has its value wherever the reference is evaluated
    pub is_certain: bool,
    /// whether it may be evaluated before a binding has its value that can be without one
    pub is_uncertain: bool,
}

impl<'a> Reference<'a> {
    /// A reference to a global name.
    pub(crate) fn free(name: &'a [u8], at: u32) -> Reference<'a>
        ensures { result ≡ free_reference name.now at }
    {
        Reference {
            name: Spelling::of(name),
            at,
            binding: None,
            is_captured: false,
            is_certain: false,
            is_uncertain: false,
        }
    }

    /// A reference from a place to a binding that it finds.
    pub(crate) fn bound(
        name: &'a [u8],
        at: u32,
        from: Place,
        found: Found,
        binding: &Binding,
    ) -> Reference<'a>
        ensures { result ≡ bound_reference name.now at from found binding.now }
    {
        let is_certain = is_certain(at, from, found.place, binding);
        Reference {
            name: Spelling::of(name),
            at,
            binding: Some(found.number),
            is_captured: found.place.function != from.function,
            is_certain,
            is_uncertain: is_counted(binding.kind, found.place.in_head) && !is_certain,
        }
    }
}

/// Whether a binding, whose scope is at a place, has its value at a reference.
fn is_certain(at: u32, from: Place, place: Place, binding: &Binding) -> bool
    ensures { result ≡ is_certain at from place binding.now }
{
    let is_late = binding.end <= at;
    let is_here = place.function == from.function;
    let has_begun = match binding.kind {
        Kind::Let | Kind::Constant => !place.in_head,
        Kind::Import | Kind::HostImport => false,
        _ => true,
    };
    is_late & is_here & !place.is_cases & has_begun
}

/// Whether a binding of a kind can be without a value, where the reference is in the head of its scope or not.
fn is_counted(kind: Kind, in_head: bool) -> bool
    ensures { result ≡ is_counted kind in_head }
{
    match kind {
        Kind::Let | Kind::Constant | Kind::Class | Kind::OwnClass | Kind::Import => true,
        Kind::Parameter | Kind::Caught => in_head,
        _ => false,
    }
}
