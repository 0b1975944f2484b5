//! Parameters (ECMA-262, 6th edition, 14.1.6, 14.1.12).

ghost use Rattle.std.specs.Prelude.{◌≡◌, ◌+◌, IfOk};
ghost use Rattle.es6_ast.specs.declared.tree.Parameter.{out-Parameter};
ghost use Rattle.es6_ast.specs.declared.tree.Pattern.{out-Pattern};
ghost use Rattle.source_meaning.specs.Trees.{are_simple, counts, expected_count, have_expression, is_name_in, is_plain_in, is_plain_part};

use es6_ast::{Parameter, Part, Pattern};
use std::alloc::AllocError;

fn is_name(pattern: &Pattern) -> bool
    ensures { result ≡ is_name_in (out-Pattern pattern.now) }
{
    match pattern {
        Pattern::Target(_) => true,
        _ => false,
    }
}

/// A name without a default.
fn is_plain_part(part: &Part) -> bool
    ensures { result ≡ is_plain_part part.now }
{
    is_name(&part.pattern) & part.default.is_none()
}

fn is_plain(parameter: &Parameter) -> bool
    ensures { result ≡ is_plain_in (out-Parameter parameter.now) }
{
    match parameter {
        Parameter::SingleParameter(part) => is_plain_part(part),
        Parameter::RestParameter { .. } => false,
    }
}

/// IsSimpleParameterList (14.1.12).
pub fn are_simple(parameters: &[Parameter]) -> bool
    ensures { result ≡ are_simple parameters.now }
{
    for parameter in parameters {
        if !is_plain(parameter) {
            return false;
        }
    }
    true
}

/// Whether an expression stands among these parameters (14.1.5).
#[tactic(auto, using(crate::proofs::Listed::expressions_listed))]
pub fn have_expression(parameters: &[Parameter]) -> bool
    ensures { result ≡ have_expression parameters.now }
{
    scope_heads::have_expression(parameters)
}

fn counts(parameter: &Parameter) -> bool
    ensures { result ≡ counts (out-Parameter parameter.now) }
{
    match parameter {
        Parameter::SingleParameter(part) => part.default.is_none(),
        Parameter::RestParameter { .. } => false,
    }
}

/// One more, if there is room for so many.
fn one_more(count: u32) -> Result<u32, AllocError>
    ensures { IfOk result (λ more. more ≡ count + 1) }
{
    match count.checked_add(1) {
        None => Err(AllocError),
        Some(more) => Ok(more),
    }
}

/// ExpectedArgumentCount (14.1.6): the parameters before the first default or rest.
pub fn expected_count(parameters: &[Parameter]) -> Result<u32, AllocError>
    ensures { IfOk result (λ count. count ≡ expected_count parameters.now) }
{
    let mut count = 0;
    for parameter in parameters {
        if !counts(parameter) {
            return Ok(count);
        }
        count = one_more(count)?;
    }
    Ok(count)
}
