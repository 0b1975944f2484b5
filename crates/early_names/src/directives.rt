//! Directives (14.1.1).

ghost use Rattle.std.specs.Prelude.{◌≡◌, map};
ghost use Rattle.es6_static_semantics.specs.Early.{expression_found, is_strict_text, literal_directive, statement_found, strict_directive};
ghost use Rattle.early_names.specs.Directives.{directive_of};

use es_text::Span;
use es6_ast::{Expression, Literal, Statement};

/// The units of `use strict`.
const USE_STRICT: [u16; 10] = [
    b'u' as u16,
    b's' as u16,
    b'e' as u16,
    b' ' as u16,
    b's' as u16,
    b't' as u16,
    b'r' as u16,
    b'i' as u16,
    b'c' as u16,
    b't' as u16,
];

/// Whether a statement is a directive, and with its place the one of strict code.
#[derive(Clone, Copy, Debug, PartialEq, Eq)]
pub enum Directive {
    NoDirective,
    OtherDirective,
    StrictDirective(u32),
}

/// The first directive of strict code at the statements' start.
pub fn strict_directive(statements: &[Statement]) -> Option<u32>
    ensures { result ≡ strict_directive (map statement_found statements.now) }
{
    for statement in statements {
        match of_statement(statement) {
            Directive::NoDirective => return None,
            Directive::OtherDirective => (),
            Directive::StrictDirective(at) => return Some(at),
        }
    }
    None
}

fn of_statement(statement: &Statement) -> Directive
    ensures { directive_of result ≡ (statement_found statement.now).directive }
{
    match statement {
        Statement::Expression { expression, .. } => of_expression(expression),
        _ => Directive::NoDirective,
    }
}

fn of_expression(expression: &Expression) -> Directive
    ensures { directive_of result ≡ (expression_found expression.now).directive }
{
    match expression {
        Expression::Literal { span, literal } => of_literal(literal, *span),
        _ => Directive::NoDirective,
    }
}

fn of_literal(literal: &Literal, span: Span) -> Directive
    ensures { directive_of result ≡ literal_directive literal.now span }
{
    match literal {
        Literal::Text(text) if is_strict_text(text.units(), span) => {
            Directive::StrictDirective(span.begin)
        }
        Literal::Text(_) => Directive::OtherDirective,
        Literal::Null | Literal::Truth(_) | Literal::Integer(_) => Directive::NoDirective,
    }
}

/// Whether the text is that of strict code and is written without escapes, in twelve characters.
fn is_strict_text(units: &[u16], span: Span) -> bool
    ensures { result ≡ is_strict_text units.now span }
{
    units == USE_STRICT.as_slice() && span.end.saturating_sub(span.begin) == 12
}
