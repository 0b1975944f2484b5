//! The trees of what parentheses hold.

use crate::boxes::boxed_beside;
use crate::reading::Reading;
use crate::{Trees, refining};
use es_text::Span;
use es6_ast::{Expression, Rest, Shape};
use es6_cursor::{Cursor, Halt};
use es6_makers::MakesGroups;
use sqlite_items::{Boxed, Items};
use std::alloc::{AllocError, Global};

impl MakesGroups for Trees {
    type Expressions = Items<Expression>;

    ghost seen_expressions = { λ x. x };

    fn held_parameters(
        cursor: &Cursor,
        first: &Reading,
        more: &Items<Expression>,
    ) -> Result<(), Halt> {
        refining::held_parameters(cursor, first.value(), more.as_slice())
    }

    fn no_expressions(alloc: Global) -> Items<Expression> {
        Items::new(alloc)
    }

    fn push_expression(list: &mut Items<Expression>, value: Reading) -> Result<(), AllocError> {
        list.push(value.into_value())
    }

    fn group(alloc: Global, span: Span, held: Reading) -> Result<Reading, AllocError> {
        let held = Boxed::new(alloc, held.into_value())?;
        Ok(Reading::new(Expression::Group { span, held }, Shape::Grouped))
    }

    fn cover(span: Span, rest: Option<Rest>) -> Reading {
        let held = None;
        Reading::new(Expression::Cover { span, held, rest }, Shape::Covered)
    }

    fn cover_of(
        alloc: Global,
        span: Span,
        held: Reading,
        rest: Rest,
    ) -> Result<Reading, AllocError> {
        let held = Some(Boxed::new(alloc, held.into_value())?);
        let rest = Some(rest);
        Ok(Reading::new(Expression::Cover { span, held, rest }, Shape::Covered))
    }

    fn sequenced(
        alloc: Global,
        span: Span,
        first: Reading,
        rest: Items<Expression>,
    ) -> Result<Reading, AllocError> {
        if rest.is_empty() {
            return Ok(first);
        }
        let (first, rest) = boxed_beside(alloc, first.into_value(), rest)?;
        Ok(Reading::other(Expression::Sequence { span, first, rest }))
    }

    fn sequence(
        alloc: Global,
        span: Span,
        first: Reading,
        rest: Items<Expression>,
    ) -> Result<Reading, AllocError> {
        let (first, rest) = boxed_beside(alloc, first.into_value(), rest)?;
        Ok(Reading::other(Expression::Sequence { span, first, rest }))
    }
}
