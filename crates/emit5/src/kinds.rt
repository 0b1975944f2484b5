//! What the kind of a function says of it.

ghost use Rattle.std.specs.Prelude.{◌≡◌};
ghost use Rattle.core_ast.specs.Lawful.{is_generator};
ghost use Rattle.emission_rules.specs.Functions.{asked, is_arrow, is_class, is_framed, keeps_apart, wants_own};

use core_ast::{CoreFunction, CoreKind};
use emission_rules::Uses;
use emit_expressions::no_uses;

#[tactic(auto, unfolding(emission_rules::specs::Functions::is_arrow))]
pub(crate) fn is_arrow(kind: CoreKind) -> bool
    ensures { result ≡ is_arrow kind }
{
    match kind {
        CoreKind::Arrow => true,
        _ => false,
    }
}

#[tactic(auto, unfolding(emission_rules::specs::Functions::is_class))]
pub(crate) fn is_class(kind: CoreKind) -> bool
    ensures { result ≡ is_class kind }
{
    match kind {
        CoreKind::Class { .. } => true,
        _ => false,
    }
}

/// Whether `this` is that of the frame.
#[tactic(auto, unfolding(emission_rules::specs::Functions::is_framed))]
pub(crate) fn is_framed(kind: CoreKind) -> bool
    ensures { result ≡ is_framed kind }
{
    match kind {
        CoreKind::Arrow => true,
        CoreKind::Class { derived } => derived,
        _ => false,
    }
}

pub(crate) fn is_generator(kind: CoreKind) -> bool
    ensures { result ≡ is_generator kind }
{
    match kind {
        CoreKind::Generator => true,
        _ => false,
    }
}

/// Whether a function of this kind is asked for itself.
pub(crate) fn wants_own(kind: CoreKind, uses: Uses) -> bool
    ensures { result ≡ wants_own kind uses }
{
    (uses.own | (uses.target & !is_class(kind))) & !is_arrow(kind)
}

/// Whether the arguments are kept apart.
pub(crate) fn keeps_apart(function: &CoreFunction) -> bool
    ensures { result ≡ keeps_apart function.now }
{
    function.arguments.is_some() | function.resumption.is_some()
}

/// What a function asks of the one round it.
pub(crate) fn asked(kind: CoreKind, uses: Uses) -> Uses
    ensures { result ≡ asked kind uses }
{
    if !is_arrow(kind) {
        return no_uses();
    }
    let mut asked = uses;
    asked.passed = false;
    asked
}
