//! Patterns and parameters of expressions.

ghost use Rattle.std.specs.Prelude.{IfErr, IfOk};
ghost use Rattle.es6_reading.specs.Refine.{Fits, refine_parameters, refine_pattern, target_before};
ghost use Rattle.es6_trees.specs.Built.{Becomes};
ghost use Rattle.es6_trees.specs.Refines.{AreNoParameters, AreParametersIn, IsNoPattern, IsPatternIn, Refines};

use crate::build::pattern_of;
use crate::fault::{RefineFault, Unrefined};
use crate::made::Unbuilt;
use crate::names::target_alone;
use crate::parameters::built_parameters;
use es6_ast::{AssignOperator, Expression, Parameter, Pattern};
use es6_refine::{Fit, are_parameters, is_pattern};
use sqlite_items::Items;
use std::alloc::Global;

/// How deep literals and groups are looked into where no depth is given: more than memory holds.
const DEEPEST: u32 = 4_294_967_295;

/// The pattern. That it is one is found out before.
fn built_pattern(alloc: Global, depth: u32, expression: Expression) -> Result<Pattern, Unbuilt>
    ensures { IfOk result (λ pattern. Becomes (refine_pattern depth expression) pattern) }
{
    pattern_of(alloc, depth, expression)
}

/// The pattern that is assigned where an expression stands before `=` (12.14.5): an array or object literal is a pattern, and
/// any other expression has to be a simple target. The walk is as deep as the expression.
pub fn refine_pattern(alloc: Global, expression: Expression) -> Result<Pattern, RefineFault>
    ensures ok { IfOk result (IsPatternIn expression) }
    ensures fault { IfErr result (IsNoPattern expression) }
{
    match is_pattern(DEEPEST, &expression) {
        Fit::Fits => match built_pattern(alloc, DEEPEST, expression) {
            Ok(pattern) => Ok(pattern),
            Err(_) => Err(RefineFault::OutOfMemory),
        },
        Fit::Misfit { at } => Err(RefineFault::NotAPattern { at, expression }),
        Fit::TooNested => Err(RefineFault::OutOfMemory),
    }
}

/// The parameters that a name or parentheses before `=>` are (14.2).
pub fn refine_parameters(
    alloc: Global,
    expression: Expression,
) -> Result<Items<Parameter>, RefineFault>
    ensures ok { IfOk result (AreParametersIn expression) }
    ensures fault { IfErr result (AreNoParameters expression) }
{
    match are_parameters(DEEPEST, &expression) {
        Fit::Fits => match built_parameters(alloc, DEEPEST, expression) {
            Ok(parameters) => Ok(parameters),
            Err(_) => Err(RefineFault::OutOfMemory),
        },
        Fit::Misfit { at } => Err(RefineFault::NotAPattern { at, expression }),
        Fit::TooNested => Err(RefineFault::OutOfMemory),
    }
}

/// The same, with literals and groups in one another down to the depth, for a reader that has no use for the expression.
pub fn parameters_within(
    alloc: Global,
    depth: u32,
    expression: Expression,
) -> Result<Items<Parameter>, Unrefined>
    ensures { Refines (refine_parameters depth expression) result }
{
    match are_parameters(depth, &expression) {
        Fit::Fits => match built_parameters(alloc, depth, expression) {
            Ok(parameters) => Ok(parameters),
            Err(_) => Err(Unrefined::OutOfMemory),
        },
        Fit::Misfit { at } => Err(Unrefined::Misfit { at }),
        Fit::TooNested => Err(Unrefined::TooNested),
    }
}

/// What is assigned before the operator: the pattern that the expression is before `=`, or else the expression itself. Where
/// that is no simple target, it is an early error (12.14.1). Literals and groups are looked into down to the depth.
pub fn target_before(
    alloc: Global,
    depth: u32,
    operator: AssignOperator,
    expression: Expression,
) -> Result<Pattern, Unrefined>
    ensures { Refines (target_before depth operator expression) result }
{
    match operator {
        AssignOperator::Assign => assigned(alloc, depth, expression),
        _ => itself(alloc, expression),
    }
}

fn itself(alloc: Global, expression: Expression) -> Result<Pattern, Unrefined>
    ensures { Refines (Fits (Pattern.Target expression)) result }
{
    match target_alone(alloc, expression) {
        Ok(pattern) => Ok(pattern),
        Err(_) => Err(Unrefined::OutOfMemory),
    }
}

fn assigned(alloc: Global, depth: u32, expression: Expression) -> Result<Pattern, Unrefined>
    ensures { Refines (target_before depth AssignOperator.Assign expression) result }
{
    match is_pattern(depth, &expression) {
        Fit::Fits => match built_pattern(alloc, depth, expression) {
            Ok(pattern) => Ok(pattern),
            Err(_) => Err(Unrefined::OutOfMemory),
        },
        Fit::Misfit { .. } => itself(alloc, expression),
        Fit::TooNested => Err(Unrefined::TooNested),
    }
}
