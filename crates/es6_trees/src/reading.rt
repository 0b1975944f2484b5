//! What a reader of expressions gives.

ghost use Rattle.std.specs.Prelude.{◌≡◌, MatchResult, Some, None};
ghost use Rattle.es6_reading.specs.Statements.{label_of};
ghost use Rattle.es6_reading.specs.Parser.{is_covered, is_left};
ghost use Rattle.es6_ast.specs.declared.settings.Shape.TheVariants.{Bare};
ghost use Rattle.es6_reading.specs.Expressions.{left, other};
ghost use Rattle.es6_ast.specs.declared.tree.Expression.TheVariants as expr;

use es_text::Span;
use es6_ast::{Expression, Identifier, Shape};
use shared_text::Name;
use std::marker::Model;

/// An expression that was read.
#[derive(Drop)]
pub struct Reading {
    value: Expression,
    shape: Shape,
}

impl Model for Reading {
    ghost use Rattle.es6_ast.specs.contracts.tree.Expression as expression;
    ghost use Rattle.es6_reading.specs.Parser.{Reading as Seen};
    ghost use Rattle.std.specs.Coded.{codes};

    ghost Value = { Seen };

    ghost coded = { Prim.hlevel (codes, expression.the_row.coded) };

    ghost view = { λ r. record { value = r.value; shape = r.shape } };
}

impl Reading {
    pub fn new(value: Expression, shape: Shape) -> Reading
        ensures { result ≡ record { value = value; shape = shape } }
    {
        Reading { value, shape }
    }

    /// A name with nothing round it.
    pub fn bare(span: Span, name: Name) -> Reading
        ensures { result ≡ record { value = expr.Name span name; shape = Bare } }
    {
        Reading {
            value: Expression::Name { span, name },
            shape: Shape::Bare,
        }
    }

    /// A left-hand-side expression that is no name and no group.
    pub fn left(value: Expression) -> Reading
        ensures { result ≡ left value }
    {
        Reading {
            value,
            shape: Shape::LeftHandSide,
        }
    }

    /// An expression with an operator of its own.
    pub fn other(value: Expression) -> Reading
        ensures { result ≡ other value }
    {
        Reading {
            value,
            shape: Shape::Other,
        }
    }

    /// Whether it is a left-hand-side expression.
    pub fn is_left(&self) -> bool
        ensures { result ≡ is_left self.now.shape }
    {
        match self.shape {
            Shape::Bare | Shape::Grouped | Shape::LeftHandSide => true,
            Shape::Covered | Shape::Other => false,
        }
    }

    /// Whether it is parentheses that only an arrow's parameters have.
    pub fn is_covered(&self) -> bool
        ensures { result ≡ is_covered self.now.shape }
    {
        match self.shape {
            Shape::Covered => true,
            Shape::Bare | Shape::Grouped | Shape::LeftHandSide | Shape::Other => false,
        }
    }

    pub fn shape(&self) -> Shape
        ensures { result ≡ self.now.shape }
    {
        self.shape
    }

    pub fn value(&self) -> &Expression
        ensures { result.now ≡ self.now.value }
    {
        &self.value
    }

    pub fn into_value(self) -> Expression
        ensures { result ≡ self.value }
    {
        let Reading { value, shape: _ } = self;
        value
    }

    /// The label that it may be, or else the expression again (13.13).
    pub fn into_label(self) -> Result<Identifier, Reading>
        ensures { MatchResult result (λ x. (self.value ≡ expr.Name x.span x.name) × (label_of self.shape self.value ≡ Some x)) (λ other. (self.value ≡ other.value) × (label_of self.shape self.value ≡ None)) }
    {
        match self.shape {
            Shape::Bare => label_in(self.value),
            Shape::Grouped | Shape::Covered | Shape::LeftHandSide | Shape::Other => Err(self),
        }
    }
}

/// The label that an expression is which stands there bare.
fn label_in(value: Expression) -> Result<Identifier, Reading>
    ensures { MatchResult result (λ x. (value ≡ expr.Name x.span x.name) × (label_of Bare value ≡ Some x)) (λ other. (value ≡ other.value) × (label_of Bare value ≡ None)) }
{
    match value {
        Expression::Name { span, name } => Ok(Identifier { span, name }),
        value => Err(Reading {
            value,
            shape: Shape::Bare,
        }),
    }
}
