//! Expressions as patterns and parameters, where a reader finds out that they are (ECMA-262, 6th edition, 12.14.5, 14.2).

ghost use Rattle.std.specs.Prelude.{◌≡◌, ◌∷◌};
ghost use Rattle.es6_cursor.specs.Readers.{turns};
ghost use Rattle.es6_cursor.specs.Reads.{Reads, Skips};
ghost use Rattle.es6_makers.specs.Misfits.{misfits};
ghost use Rattle.es6_reading.specs.Expressions.{fitting, parameters_before};
ghost use Rattle.es6_reading.specs.Refine.{parameters_of, refine_parameters, target_before};
ghost use Rattle.es6_trees.specs.Refining.{ReadsRefined};

use crate::fault::Unrefined;
use crate::reading::Reading;
use crate::refine::{parameters_within, target_before};
use es6_ast::{AssignOperator, Expression, Parameter, Pattern, Shape};
use es6_cursor::{Cursor, Halt, Stop, TURNS};
use es6_refine::{Fit, are_parameters, parameters_fit};
use sqlite_items::Items;

/// What a refinement gives, which has to fit.
fn fitting<A>(cursor: &Cursor, refined: Result<A, Unrefined>) -> Result<A, Halt>
    ensures { ReadsRefined refined result cursor.now }
{
    match refined {
        Ok(value) => Ok(value),
        Err(Unrefined::Misfit { .. }) => cursor.refuse(),
        Err(Unrefined::TooNested) => Err(Halt::Stopped(Stop::Endless)),
        Err(Unrefined::OutOfMemory) => Err(Halt::OutOfMemory),
    }
}

/// The parameters that an expression is refined to.
fn refined_parameters(cursor: &Cursor, head: Reading) -> Result<Items<Parameter>, Halt>
    ensures { Reads (fitting (refine_parameters turns head.value) cursor.now) result cursor.now }
{
    let refined = parameters_within(cursor.alloc(), TURNS, head.into_value());
    fitting(cursor, refined)
}

/// Whether a name or parentheses are no parameters.
fn are_no_parameters(expression: &Expression) -> bool
    ensures { result ≡ misfits (refine_parameters turns expression.now) }
{
    match are_parameters(TURNS, expression) {
        Fit::Misfit { .. } => true,
        Fit::Fits => false,
        Fit::TooNested => false,
    }
}

/// Whether what stands before `=>` is no parameters.
pub fn is_misfit(head: &Reading) -> bool
    ensures { result ≡ misfits (parameters_before turns head.now.shape head.now.value) }
{
    match head.shape() {
        Shape::Bare | Shape::Grouped | Shape::Covered => are_no_parameters(head.value()),
        Shape::LeftHandSide | Shape::Other => true,
    }
}

/// The parameters that stand before `=>`.
pub fn arrow_parameters(cursor: &Cursor, head: Reading) -> Result<Items<Parameter>, Halt>
    ensures { Reads (fitting (parameters_before turns head.shape head.value) cursor.now) result cursor.now }
{
    match head.shape() {
        Shape::Bare | Shape::Grouped | Shape::Covered => refined_parameters(cursor, head),
        Shape::LeftHandSide | Shape::Other => cursor.refuse(),
    }
}

/// What an assignment operator assigns that stands after the expression.
pub fn assigned_target(
    cursor: &Cursor,
    operator: AssignOperator,
    target: Expression,
) -> Result<Pattern, Halt>
    ensures { Reads (fitting (target_before turns operator target) cursor.now) result cursor.now }
{
    fitting(
        cursor,
        target_before(cursor.alloc(), TURNS, operator, target),
    )
}

/// Whether the parts of a group are parameters.
pub fn held_parameters(cursor: &Cursor, first: &Expression, more: &[Expression]) -> Result<(), Halt>
    ensures { Skips (fitting (parameters_of turns (first.now ∷ more.now)) cursor.now) result cursor.now }
{
    match parameters_fit(TURNS, first, more) {
        Fit::Fits => Ok(()),
        Fit::Misfit { .. } => cursor.refuse(),
        Fit::TooNested => Err(Halt::Stopped(Stop::Endless)),
    }
}
