//! Targets with their defaults, among expressions.

ghost use Rattle.es6_trees.specs.Split.{IsSplit};

use es_text::Span;
use es6_ast::{AssignOperator, Expression, Pattern};

/// A target with its default, or an expression without one.
#[derive(Drop)]
pub enum Split {
    Defaulted {
        span: Span,
        target: Pattern,
        value: Expression,
    },
    Alone(Expression),
}

pub fn without_default(expression: Expression) -> Split
    ensures { IsSplit expression result }
{
    match expression {
        Expression::Assign {
            span,
            operator: AssignOperator::Assign,
            target,
            value,
        } => Split::Defaulted {
            span,
            target,
            value: value.into_inner(),
        },
        other => Split::Alone(other),
    }
}
