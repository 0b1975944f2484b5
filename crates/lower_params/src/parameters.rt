//! Parameters (ECMA-262, 6th edition, 9.2.12 and 14.1).

ghost use Rattle.std.specs.Prelude.{◌≡◌, ◌+◌, ◌++◌, map, IfOk, OnOk};
ghost use Rattle.std.specs.List.{flat_map};
ghost use Rattle.lowering_rules.specs.Functions.{begun, bound, expected_count, parameters_bound, rest_bound, with_parameters};
ghost use Rattle.core_ast.specs.declared.parts.Primitive.TheVariants.{RestList};
ghost use Rattle.lowering_rules.specs.Making.{initialize, number, through, uninitialized};

use core_ast::{CoreFunction, CoreStat, Primitive, Var, variable};
use lower_parts::{initialize, number, push_default, through, uninitialized};
use lowering_rules::{BodyVar, Parameter, ParameterScope, RestParameter};
use sqlite_items::Items;
use std::alloc::{AllocError, Global};
use std::collections::VecDeque;

fn next(count: u32) -> Result<u32, AllocError>
    ensures { IfOk result (λ n. n ≡ count + 1) }
{
    match count.checked_add(1) {
        Some(count) => Ok(count),
        None => Err(AllocError),
    }
}

/// How many parameters stand before the first default.
#[tactic(auto, unfolding(lowering_rules::specs::Functions::counted))]
fn expected_count(parameters: &[Parameter]) -> Result<u32, AllocError>
    ensures { IfOk result (λ n. n ≡ expected_count parameters.now) }
{
    let mut count = 0;
    for parameter in parameters {
        if parameter.default.is_some() {
            return Ok(count);
        }
        count = next(count)?;
    }
    Ok(count)
}

fn formals(alloc: Global, parameters: &[Parameter]) -> Result<Items<Var>, AllocError>
    ensures { IfOk result (λ xs. xs ≡ map (λ p. p.formal) parameters.now) }
{
    let mut formals = Items::new(alloc);
    for parameter in parameters {
        formals.push(parameter.formal)?;
    }
    Ok(formals)
}

fn push_uninitialized(
    alloc: Global,
    names: &[Var],
    out: &mut Items<CoreStat>,
) -> Result<(), AllocError>
    ensures { OnOk result (out.new ≡ out.old ++ map uninitialized names.now) }
{
    for name in names {
        out.push(uninitialized(alloc, *name)?)?;
    }
    Ok(())
}

fn push_parameter(
    alloc: Global,
    parameter: Parameter,
    out: &mut Items<CoreStat>,
) -> Result<(), AllocError>
    ensures { OnOk result (out.new ≡ out.old ++ bound parameter) }
{
    push_default(alloc, parameter.formal, parameter.default, out)?;
    out.append(parameter.bound)
}

fn push_parameters(
    alloc: Global,
    parameters: Vec<Parameter>,
    out: &mut Items<CoreStat>,
) -> Result<(), AllocError>
    ensures { OnOk result (out.new ≡ out.old ++ flat_map bound parameters.items) }
{
    let mut left = VecDeque::from_vec(parameters);
    while let Some(parameter) = left.pop_front() {
        push_parameter(alloc, parameter, out)?;
    }
    Ok(())
}

/// The arguments from this place on.
fn rest_list(alloc: Global, place: usize, list: Var) -> Result<CoreStat, AllocError>
    ensures { IfOk result (λ s. s ≡ initialize list (through (number place) RestList)) }
{
    let place = number(alloc, place as u64);
    let arguments = through(alloc, place, Primitive::RestList)?;
    initialize(alloc, list, arguments)
}

#[tactic(auto, unfolding(lowering_rules::specs::Functions::rest_bound))]
fn push_rest(
    alloc: Global,
    place: usize,
    rest: Option<RestParameter>,
    out: &mut Items<CoreStat>,
) -> Result<(), AllocError>
    ensures { OnOk result (out.new ≡ out.old ++ rest_bound place rest) }
{
    match rest {
        Some(rest) => {
            out.push(rest_list(alloc, place, rest.list)?)?;
            out.append(rest.bound)
        }
        None => Ok(()),
    }
}

fn push_begun(alloc: Global, body: &[BodyVar], out: &mut Items<CoreStat>) -> Result<(), AllocError>
    ensures { OnOk result (out.new ≡ out.old ++ map begun body.now) }
{
    for var in body {
        let value = variable(alloc, var.parameter);
        out.push(initialize(alloc, var.var, value)?)?;
    }
    Ok(())
}

fn push_all(
    alloc: Global,
    parameters: Vec<Parameter>,
    rest: Option<RestParameter>,
    scope: &ParameterScope,
    out: &mut Items<CoreStat>,
) -> Result<(), AllocError>
    ensures { OnOk result (out.new ≡ out.old ++ parameters_bound parameters.items rest scope.now) }
{
    let place = parameters.len();
    push_uninitialized(alloc, scope.names.as_slice(), out)?;
    push_parameters(alloc, parameters, out)?;
    push_rest(alloc, place, rest, out)?;
    push_begun(alloc, scope.body.as_slice(), out)
}

/// The function with these parameters.
pub fn lower_parameters(
    alloc: Global,
    parameters: Vec<Parameter>,
    rest: Option<RestParameter>,
    scope: ParameterScope,
    function: CoreFunction,
) -> Result<CoreFunction, AllocError>
    ensures { IfOk result (λ f. f ≡ with_parameters parameters.items rest scope function) }
{
    let mut function = function;
    function.length = expected_count(parameters.as_slice())?;
    function.parameters = formals(alloc, parameters.as_slice())?;
    push_all(alloc, parameters, rest, &scope, &mut function.setup)?;
    function.locals.append(scope.names)?;
    Ok(function)
}
