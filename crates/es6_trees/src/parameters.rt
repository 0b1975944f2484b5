//! Builds an arrow's parameters of an expression (14.2): a name, or what parentheses hold.

ghost use Rattle.std.specs.Prelude.{◌≡◌, [], ◌∷◌, ◌++◌, reverse, IfOk, None};
ghost use Rattle.es6_ast.specs.Grammar.{name_alone};
ghost use Rattle.es6_ast.specs.declared.tree.Argument.TheOpen.{Cover as cover_layer};
ghost use Rattle.es6_reading.specs.Refine.{parameters_in, parts_of, refine_parameters, rest_parameter};
ghost use Rattle.es6_trees.specs.Built.{AreParametersOf, Becomes, IsParameterOf, IsRestedOf};

use crate::build::part_of;
use crate::made::{Unbuilt, add};
use crate::names::{name_target, named_part};
use es_text::Span;
use es6_ast::{Expression, Identifier, Parameter, Rest};
use sqlite_items::{Boxed, Items};
use std::alloc::{AllocError, Global};

/// A parameter without a rest.
#[tactic(auto, using(crate::proofs::ParameterLists::single_parameter_is))]
fn parameter_of(alloc: Global, depth: u32, expression: Expression) -> Result<Parameter, Unbuilt>
    ensures { IfOk result (λ parameter. IsParameterOf depth expression parameter) }
{
    match part_of(alloc, depth, expression) {
        Ok(part) => Ok(Parameter::SingleParameter(part)),
        Err(fault) => Err(fault),
    }
}

/// The parameters, with the last first.
fn more_parameters(
    alloc: Global,
    depth: u32,
    expressions: Items<Expression>,
) -> Result<Vec<Parameter>, Unbuilt>
    ensures { IfOk result (λ back. AreParametersOf depth expressions (reverse back.items)) }
{
    let mut left = expressions;
    let mut back = Vec::new(alloc);
    'taking: while let Some(expression) = left.pop() {
        add(&mut back, parameter_of(alloc, depth, expression))?;
    }
    Ok(back)
}

fn parameters_of(
    alloc: Global,
    depth: u32,
    first: Expression,
    more: Items<Expression>,
) -> Result<Items<Parameter>, Unbuilt>
    ensures { IfOk result (λ parameters. AreParametersOf depth (first ∷ more) parameters) }
{
    let mut back = more_parameters(alloc, depth, more)?;
    add(&mut back, parameter_of(alloc, depth, first))?;
    back.reverse();
    Ok(Items::from_vec(back))
}

fn held_parameters(alloc: Global, depth: u32, held: Expression) -> Result<Items<Parameter>, Unbuilt>
    ensures { IfOk result (λ parameters. AreParametersOf depth (parts_of held) parameters) }
{
    match held {
        Expression::Sequence { first, rest, .. } => parameters_of(
            alloc,
            depth,
            first.into_inner(),
            rest,
        ),
        alone => parameters_of(alloc, depth, alone, Items::new(alloc)),
    }
}

fn rest_parameter(alloc: Global, rest: Rest) -> Result<Parameter, AllocError>
    ensures { IfOk result (λ parameter. parameter ≡ rest_parameter rest) }
{
    let Rest { span, name } = rest;
    Ok(Parameter::RestParameter {
        span,
        pattern: name_target(alloc, name)?,
    })
}

/// The parameters, and a rest after them.
fn with_rest(
    alloc: Global,
    parameters: Items<Parameter>,
    rest: Rest,
) -> Result<Items<Parameter>, Unbuilt>
    ensures { IfOk result (λ all. all ≡ parameters ++ rest_parameter rest ∷ []) }
{
    let rest = rest_parameter(alloc, rest)?;
    let mut all = parameters;
    all.push(rest)?;
    Ok(all)
}

fn one_name(alloc: Global, name: Identifier) -> Result<Items<Parameter>, Unbuilt>
    ensures { IfOk result (λ parameters. parameters ≡ Parameter.SingleParameter (name_alone name) ∷ []) }
{
    let part = named_part(alloc, name.span, name, None)?;
    let mut all = Items::new(alloc);
    all.push(Parameter::SingleParameter(part))?;
    Ok(all)
}

/// A rest, after the parameters that stand before it, if there are any.
fn rested_parameters(
    alloc: Global,
    depth: u32,
    held: Option<Boxed<Expression>>,
    rest: Rest,
) -> Result<Items<Parameter>, Unbuilt>
    ensures { IfOk result (λ parameters. IsRestedOf depth held rest parameters) }
{
    match held {
        Some(held) => {
            let parameters = held_parameters(alloc, depth, held.into_inner())?;
            with_rest(alloc, parameters, rest)
        }
        None => with_rest(alloc, Items::new(alloc), rest),
    }
}

/// Parentheses that hold nothing. A comma after an expression is followed by a rest.
fn bare_cover(alloc: Global, held: Option<Boxed<Expression>>) -> Result<Items<Parameter>, Unbuilt>
    ensures { IfOk result (λ parameters. (held ≡ None) × (parameters ≡ [])) }
{
    match held {
        None => Ok(Items::new(alloc)),
        Some(_) => Err(Unbuilt::Unfit),
    }
}

/// What stands in the parentheses that only parameters have.
fn cover_parameters(
    alloc: Global,
    depth: u32,
    span: Span,
    held: Option<Boxed<Expression>>,
    rest: Option<Rest>,
) -> Result<Items<Parameter>, Unbuilt>
    ensures { IfOk result (λ parameters. Becomes (parameters_in depth (cover_layer span held rest)) parameters) }
{
    match rest {
        Some(rest) => rested_parameters(alloc, depth, held, rest),
        None => bare_cover(alloc, held),
    }
}

/// The parameters that a name or parentheses are. That they fit is found out before.
pub fn built_parameters(
    alloc: Global,
    depth: u32,
    expression: Expression,
) -> Result<Items<Parameter>, Unbuilt>
    ensures { IfOk result (λ parameters. Becomes (refine_parameters depth expression) parameters) }
{
    match expression {
        Expression::Name { span, name } => one_name(alloc, Identifier { span, name }),
        Expression::Group { held, .. } => held_parameters(alloc, depth, held.into_inner()),
        Expression::Cover { span, held, rest } => cover_parameters(alloc, depth, span, held, rest),
        _ => Err(Unbuilt::Unfit),
    }
}
