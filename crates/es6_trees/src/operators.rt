//! The trees of operators.

use crate::Trees;
use crate::boxes::{both_boxed, boxed_beside, three_boxed};
use crate::reading::Reading;
use es_text::Span;
use es6_ast::{BinaryOperator, Expression, Operand, UnaryOperator, UpdateOperator};
use es6_makers::MakesOperators;
use sqlite_items::{Boxed, Items};
use std::alloc::{AllocError, Global};

impl MakesOperators for Trees {
    type Operands = Items<Operand>;

    ghost seen_operands = { λ x. x };

    fn update(
        alloc: Global,
        span: Span,
        operator: UpdateOperator,
        target: Reading,
    ) -> Result<Reading, AllocError> {
        let target = Boxed::new(alloc, target.into_value())?;
        Ok(Reading::other(Expression::Update {
            span,
            operator,
            target,
        }))
    }

    fn unary(
        alloc: Global,
        span: Span,
        operator: UnaryOperator,
        operand: Reading,
    ) -> Result<Reading, AllocError> {
        let operand = Boxed::new(alloc, operand.into_value())?;
        Ok(Reading::other(Expression::Unary {
            span,
            operator,
            operand,
        }))
    }

    fn power(
        alloc: Global,
        span: Span,
        base: Reading,
        exponent: Reading,
    ) -> Result<Reading, AllocError> {
        let (base, exponent) = both_boxed(alloc, base.into_value(), exponent.into_value())?;
        Ok(Reading::other(Expression::Power {
            span,
            base,
            exponent,
        }))
    }

    fn no_operands(alloc: Global) -> Items<Operand> {
        Items::new(alloc)
    }

    fn push_operand(
        list: &mut Items<Operand>,
        operator: BinaryOperator,
        value: Reading,
    ) -> Result<(), AllocError> {
        let value = value.into_value();
        list.push(Operand { operator, value })
    }

    fn binary(
        alloc: Global,
        span: Span,
        first: Reading,
        rest: Items<Operand>,
    ) -> Result<Reading, AllocError> {
        if rest.is_empty() {
            return Ok(first);
        }
        let (first, rest) = boxed_beside(alloc, first.into_value(), rest)?;
        Ok(Reading::other(Expression::Binary { span, first, rest }))
    }

    fn conditional(
        alloc: Global,
        span: Span,
        test: Reading,
        yes: Reading,
        no: Reading,
    ) -> Result<Reading, AllocError> {
        let (test, yes, no) = three_boxed(
            alloc,
            test.into_value(),
            yes.into_value(),
            no.into_value(),
        )?;
        Ok(Reading::other(Expression::Conditional {
            span,
            test,
            yes,
            no,
        }))
    }

    fn yielded(alloc: Global, span: Span, value: Reading) -> Result<Reading, AllocError> {
        let value = Some(Boxed::new(alloc, value.into_value())?);
        Ok(Reading::other(Expression::Yield { span, value }))
    }

    fn yield_alone(span: Span) -> Reading {
        Reading::other(Expression::Yield { span, value: None })
    }

    fn delegate(alloc: Global, span: Span, value: Reading) -> Result<Reading, AllocError> {
        let value = Boxed::new(alloc, value.into_value())?;
        Ok(Reading::other(Expression::Delegate { span, value }))
    }
}
