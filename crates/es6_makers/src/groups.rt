//! The nodes of groups and sequences (ECMA-262, 6th edition, 12.2.10, 12.15, 14.2).

ghost use Rattle.std.specs.Prelude.{◌≡◌, ◌++◌, ◌∷◌, [], IfOk, List, None, OnOk, Some};
ghost use Rattle.es6_ast.specs.declared.tree.Expression.TheVariants as expr;
ghost use Rattle.es6_ast.specs.declared.tree.Expression.{Expression};
ghost use Rattle.es6_cursor.specs.Readers.{turns};
ghost use Rattle.es6_cursor.specs.Reads.{Skips};
ghost use Rattle.es6_reading.specs.Expressions.{fitting, other, sequenced};
ghost use Rattle.es6_ast.specs.declared.settings.Shape.TheVariants.{Covered, Grouped};
ghost use Rattle.es6_reading.specs.Refine.{parameters_of};

use crate::readings::MakesReadings;
use es_text::Span;
use es6_ast::Rest;
use es6_cursor::{Cursor, Halt};
use std::alloc::{AllocError, Global};

/// Makes the nodes of what parentheses hold, and of sequences.
pub trait MakesGroups: MakesReadings {
    type Expressions: Drop;

    ghost seen_expressions: { Self.Expressions → List Expression };

    /// Halts where the parts of a group are no parameters, before which a rest may stand.
    fn held_parameters(
        cursor: &Cursor,
        first: &Self::Reading,
        more: &Self::Expressions,
    ) -> Result<(), Halt>
        ensures { Skips (fitting (parameters_of turns ((Self.seen first.now).value ∷ Self.seen_expressions more.now)) cursor.now) result cursor.now };

    fn no_expressions(alloc: Global) -> Self::Expressions
        ensures { Self.seen_expressions result ≡ [] };

    fn push_expression(list: &mut Self::Expressions, value: Self::Reading) -> Result<(), AllocError>
        ensures { OnOk result (Self.seen_expressions list.new ≡ Self.seen_expressions list.old ++ (Self.seen value).value ∷ []) };

    /// An expression in parentheses (12.2.10).
    fn group(alloc: Global, span: Span, held: Self::Reading) -> Result<Self::Reading, AllocError>
        ensures { IfOk result (λ made. Self.seen made ≡ record { value = expr.Group span (Self.seen held).value; shape = Grouped }) };

    /// Parentheses that only an arrow's parameters have, with nothing before a rest (14.2).
    fn cover(span: Span, rest: Option<Rest>) -> Self::Reading
        ensures { Self.seen result ≡ record { value = expr.Cover span None rest; shape = Covered } };

    /// The same with parameters before the rest.
    fn cover_of(
        alloc: Global,
        span: Span,
        held: Self::Reading,
        rest: Rest,
    ) -> Result<Self::Reading, AllocError>
        ensures { IfOk result (λ made. Self.seen made ≡ record { value = expr.Cover span (Some (Self.seen held).value) (Some rest); shape = Covered }) };

    /// What parentheses hold: an expression, and those that commas separate from it, if there are any.
    fn sequenced(
        alloc: Global,
        span: Span,
        first: Self::Reading,
        rest: Self::Expressions,
    ) -> Result<Self::Reading, AllocError>
        ensures { IfOk result (λ made. (Self.seen made).value ≡ sequenced (Self.seen first).value (Self.seen_expressions rest) span) };

    /// 12.15
    fn sequence(
        alloc: Global,
        span: Span,
        first: Self::Reading,
        rest: Self::Expressions,
    ) -> Result<Self::Reading, AllocError>
        ensures { IfOk result (λ made. Self.seen made ≡ other (expr.Sequence span (Self.seen first).value (Self.seen_expressions rest))) };
}
