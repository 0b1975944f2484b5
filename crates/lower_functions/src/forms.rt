//! What functions that are no arrows are there for (ECMA-262, 6th edition, 9.2 and 14.4).

ghost use Rattle.std.specs.Prelude.{◌≡◌, IfOk};
ghost use Rattle.lower_functions.specs.Insides.{function_of};
ghost use Rattle.module_lowering.specs.Functions.{completed, generator_receiver, if_seen, kind_of, no_receiver, plain_receiver, this_kind};

use crate::inside::Inside;
use crate::parts::assembled;
use core_ast::{CoreFunction, CoreKind, Var};
use lower_bodies::begun;
use lower_classes::lower_constructor;
use lowering_rules::statement_rules::Receiver;
use module_lowering::{FunctionForm, Seen, ThisKind};
use std::alloc::{AllocError, Global};

pub(crate) fn kind_of(form: FunctionForm) -> CoreKind
    ensures { result ≡ kind_of form }
{
    match form {
        FunctionForm::PlainForm => CoreKind::Plain,
        FunctionForm::MethodForm => CoreKind::Method,
        FunctionForm::AccessorForm => CoreKind::Accessor,
        FunctionForm::ConstructorForm { derived } => CoreKind::Class { derived },
    }
}

pub(crate) fn this_kind(form: FunctionForm) -> ThisKind
    ensures { result ≡ this_kind form }
{
    match form {
        FunctionForm::PlainForm => ThisKind::OfFunction,
        FunctionForm::MethodForm | FunctionForm::AccessorForm => ThisKind::OfMethod,
        FunctionForm::ConstructorForm { derived } => ThisKind::OfConstructor { derived },
    }
}

fn if_seen(seen: bool, var: Var) -> Option<Var>
    ensures { result ≡ if_seen seen var }
{
    if seen { Some(var) } else { None }
}

/// What an arrow keeps of its call.
pub(crate) fn no_receiver() -> Receiver
    ensures { result ≡ no_receiver }
{
    Receiver {
        arguments: None,
        this: None,
        target: None,
    }
}

/// What a function that is no generator keeps of its call: its arguments, where they are met in it.
pub(crate) fn plain_receiver(seen: Seen, arguments: Var) -> Receiver
    ensures { result ≡ plain_receiver seen arguments }
{
    Receiver {
        arguments: if_seen(seen.arguments, arguments),
        this: None,
        target: None,
    }
}

/// What a generator keeps of its call: `this` too.
pub(crate) fn generator_receiver(seen: Seen, arguments: Var, this: Var) -> Receiver
    ensures { result ≡ generator_receiver seen arguments this }
{
    Receiver {
        arguments: if_seen(seen.arguments, arguments),
        this: if_seen(seen.this, this),
        target: None,
    }
}

/// The function of these parts.
pub(crate) fn function_of(
    alloc: Global,
    kind: CoreKind,
    receiver: Receiver,
    inside: Inside,
) -> Result<CoreFunction, AllocError>
    ensures { IfOk result (λ f. f ≡ function_of kind receiver inside) }
{
    let Inside { value, locals, .. } = inside;
    let begun = begun(alloc, kind, receiver)?;
    assembled(alloc, value, locals, begun)
}

/// A constructor throws first where it is called without `new`.
pub(crate) fn completed(
    alloc: Global,
    form: FunctionForm,
    function: CoreFunction,
) -> Result<CoreFunction, AllocError>
    ensures { IfOk result (λ f. f ≡ completed form function) }
{
    match form {
        FunctionForm::ConstructorForm { derived } => lower_constructor(alloc, derived, function),
        FunctionForm::PlainForm | FunctionForm::MethodForm | FunctionForm::AccessorForm => {
            Ok(function)
        }
    }
}
