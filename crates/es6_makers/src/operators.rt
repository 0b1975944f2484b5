//! The nodes of operators (ECMA-262, 6th edition, 12.4 to 12.13, 14.4).

ghost use Rattle.std.specs.Prelude.{◌≡◌, ◌++◌, ◌∷◌, [], IfOk, List, None, OnOk, Some};
ghost use Rattle.es6_ast.specs.declared.tree.Expression.TheVariants as expr;
ghost use Rattle.es6_ast.specs.declared.tree.Operand.{Operand, roll-Operand};
ghost use Rattle.es6_reading.specs.Expressions.{operated, other};

use crate::readings::MakesReadings;
use es_text::Span;
use es6_ast::{BinaryOperator, UnaryOperator, UpdateOperator};
use std::alloc::{AllocError, Global};

/// Makes the nodes of operators, conditional expressions and `yield`.
pub trait MakesOperators: MakesReadings {
    type Operands: Drop;

    ghost seen_operands: { Self.Operands → List Operand };

    /// 12.4, 12.5.7, 12.5.8
    fn update(
        alloc: Global,
        span: Span,
        operator: UpdateOperator,
        target: Self::Reading,
    ) -> Result<Self::Reading, AllocError>
        ensures { IfOk result (λ made. Self.seen made ≡ other (expr.Update span operator (Self.seen target).value)) };

    /// 12.5
    fn unary(
        alloc: Global,
        span: Span,
        operator: UnaryOperator,
        operand: Self::Reading,
    ) -> Result<Self::Reading, AllocError>
        ensures { IfOk result (λ made. Self.seen made ≡ other (expr.Unary span operator (Self.seen operand).value)) };

    /// The 7th edition, 12.6.
    fn power(
        alloc: Global,
        span: Span,
        base: Self::Reading,
        exponent: Self::Reading,
    ) -> Result<Self::Reading, AllocError>
        ensures { IfOk result (λ made. Self.seen made ≡ other (expr.Power span (Self.seen base).value (Self.seen exponent).value)) };

    /// 12.6 to 12.12
    fn no_operands(alloc: Global) -> Self::Operands
        ensures { Self.seen_operands result ≡ [] };

    fn push_operand(
        list: &mut Self::Operands,
        operator: BinaryOperator,
        value: Self::Reading,
    ) -> Result<(), AllocError>
        ensures { OnOk result (Self.seen_operands list.new ≡ Self.seen_operands list.old ++ roll-Operand (record { operator = operator; value = (Self.seen value).value }) ∷ []) };

    /// An operand, and the operators of one level after it, if there are any.
    fn binary(
        alloc: Global,
        span: Span,
        first: Self::Reading,
        rest: Self::Operands,
    ) -> Result<Self::Reading, AllocError>
        ensures { IfOk result (λ made. Self.seen made ≡ operated (Self.seen first) (Self.seen_operands rest) span) };

    /// 12.13
    fn conditional(
        alloc: Global,
        span: Span,
        test: Self::Reading,
        yes: Self::Reading,
        no: Self::Reading,
    ) -> Result<Self::Reading, AllocError>
        ensures { IfOk result (λ made. Self.seen made ≡ other (expr.Conditional span (Self.seen test).value (Self.seen yes).value (Self.seen no).value)) };

    /// `yield` with a value (14.4).
    fn yielded(alloc: Global, span: Span, value: Self::Reading) -> Result<Self::Reading, AllocError>
        ensures { IfOk result (λ made. Self.seen made ≡ other (expr.Yield span (Some (Self.seen value).value))) };

    /// `yield` alone (14.4).
    fn yield_alone(span: Span) -> Self::Reading
        ensures { Self.seen result ≡ other (expr.Yield span None) };

    /// `yield *` (14.4)
    fn delegate(
        alloc: Global,
        span: Span,
        value: Self::Reading,
    ) -> Result<Self::Reading, AllocError>
        ensures { IfOk result (λ made. Self.seen made ≡ other (expr.Delegate span (Self.seen value).value)) };
}
