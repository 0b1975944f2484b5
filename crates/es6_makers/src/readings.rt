//! Expressions, what else is known of them where they were read, and those that hold no others.

ghost use Rattle.std.specs.Prelude.{◌≡◌, MatchResult, None, Option, Some};
ghost use Rattle.es6_ast.specs.declared.settings.Shape.TheVariants.{Bare};
ghost use Rattle.es6_ast.specs.declared.tree.Expression.TheVariants as expr;
ghost use Rattle.es6_ast.specs.declared.tree.Expression.{Expression};
ghost use Rattle.es6_reading.specs.Expressions.{left, other};
ghost use Rattle.es6_reading.specs.Parser.{Reading, is_covered, is_left};
ghost use Rattle.es6_reading.specs.Statements.{label_of};

use es_text::Span;
use es6_ast::{Identifier, Literal};
use shared_text::Name;

/// What else is known of an expression, and expressions that hold no others. `Reading` is an expression and what is known of it.
pub trait MakesReadings {
    type Reading: Drop;

    ghost seen: { Self.Reading → Reading };

    /// Whether it is a left-hand-side expression (12.3).
    fn is_left(reading: &Self::Reading) -> bool
        ensures { result ≡ is_left (Self.seen reading.now).shape };

    /// Whether it is parentheses that only an arrow's parameters have (14.2).
    fn is_covered(reading: &Self::Reading) -> bool
        ensures { result ≡ is_covered (Self.seen reading.now).shape };

    /// The label that an expression may be, or else the expression (13.13).
    fn into_label(reading: Self::Reading) -> Result<Identifier, Self::Reading>
        ensures { MatchResult result (λ name. ((Self.seen reading).value ≡ expr.Name name.span name.name) × (label_of (Self.seen reading).shape (Self.seen reading).value ≡ Some name)) (λ other. ((Self.seen reading).value ≡ (Self.seen other).value) × (label_of (Self.seen reading).shape (Self.seen reading).value ≡ None)) };

    /// 12.2.2
    fn this(span: Span) -> Self::Reading
        ensures { Self.seen result ≡ left (expr.This span) };

    /// A name with nothing round it (12.1).
    fn name(span: Span, name: Name) -> Self::Reading
        ensures { Self.seen result ≡ record { value = expr.Name span name; shape = Bare } };

    /// 12.2.4
    fn literal(span: Span, literal: Literal) -> Self::Reading
        ensures { Self.seen result ≡ left (expr.Literal span literal) };
}

/// Makes expressions where one may be absent.
pub trait MakesOptionals: MakesReadings {
    type Optional: Drop;

    ghost seen_optional: { Self.Optional → Option Expression };

    /// No expression, where one may be absent.
    fn absent() -> Self::Optional
        ensures { Self.seen_optional result ≡ None };

    /// An expression where one may be absent.
    fn present(value: Self::Reading) -> Self::Optional
        ensures { Self.seen_optional result ≡ Some (Self.seen value).value };
}
