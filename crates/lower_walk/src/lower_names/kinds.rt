//! Kinds of names (ECMA-262, 6th edition, 8.1.1.1).

ghost use Rattle.std.specs.Prelude.{◌≡◌};
ghost use Rattle.std.specs.Option.{option_copied};
ghost use Rattle.module_lowering.specs.Bindings.{can_be_unready, is_arguments, is_constant, is_mutable};

use scope_rules::Kind;
use scope_rules::scope_tables::Binding;

/// Whether a name of this kind refuses to be written.
pub(crate) fn is_constant(kind: Kind) -> bool
    ensures { result ≡ is_constant kind }
{
    match kind {
        Kind::Constant | Kind::OwnClass | Kind::OwnFunction | Kind::Import | Kind::HostImport => {
            true
        }
        _ => false,
    }
}

/// Whether a name of this kind can be uninitialized, where its parameter list or catch parameter may stand round the reference.
pub fn can_be_unready(kind: Kind, in_head: bool) -> bool
    ensures { result ≡ can_be_unready kind in_head }
{
    match kind {
        Kind::Let | Kind::Constant | Kind::Class | Kind::OwnClass | Kind::Default => true,
        Kind::Parameter | Kind::Caught => in_head,
        _ => false,
    }
}

pub(crate) fn is_arguments(kind: Kind) -> bool
    ensures { result ≡ is_arguments kind }
{
    match kind {
        Kind::Arguments => true,
        _ => false,
    }
}

/// Whether the binding may be written.
pub(crate) fn is_mutable(binding: Option<&Binding>) -> bool
    ensures { result ≡ is_mutable (option_copied binding.entry) }
{
    match binding {
        None => true,
        Some(binding) => !is_constant(binding.kind),
    }
}
