//! Expressions, what else is known of them where they were read, and those that hold no others.

use crate::Trees;
use crate::reading::Reading;
use es_text::Span;
use es6_ast::{Expression, Identifier, Literal};
use es6_makers::{MakesOptionals, MakesReadings};
use shared_text::Name;

impl MakesReadings for Trees {
    type Reading = Reading;

    ghost seen = { λ x. x };

    fn is_left(reading: &Reading) -> bool {
        reading.is_left()
    }

    fn is_covered(reading: &Reading) -> bool {
        reading.is_covered()
    }

    fn into_label(reading: Reading) -> Result<Identifier, Reading> {
        reading.into_label()
    }

    fn this(span: Span) -> Reading {
        Reading::left(Expression::This { span })
    }

    fn name(span: Span, name: Name) -> Reading {
        Reading::bare(span, name)
    }

    fn literal(span: Span, literal: Literal) -> Reading {
        Reading::left(Expression::Literal { span, literal })
    }
}

impl MakesOptionals for Trees {
    type Optional = Option<Expression>;

    ghost seen_optional = { λ x. x };

    fn absent() -> Option<Expression> {
        None
    }

    fn present(value: Reading) -> Option<Expression> {
        Some(value.into_value())
    }
}
