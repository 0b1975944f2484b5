//! Primary expressions (ECMA-262, 5.1 edition, 11.1).

ghost use Rattle.es5_reading.specs.Expressions.{bracketed, grouped, no_expression, primary};
ghost use Rattle.es5_cursor.specs.Nests.{ReadsExpressions, ReadsStatements};
ghost use Rattle.es5_cursor.specs.Reads.{Reads};
ghost use Rattle.es5_cursor.specs.Readers.{inner};
ghost use Rattle.es5_read_expressions.specs.Primaries.{enclosed, simple};

use crate::function::function_expression;
use crate::lists::{elements, properties};
use es5_ast::Stat5;
use es5_cursor::{Cursor, Halt, Nested, Stop, open};
use es5_nodes::{Read, expressions};
use es5_tokens::Punctuator;
use sqlite_items::Boxed;

#[tactic(auto, using(es5_cursor::proofs::Rules::groups), unfolding(es5_reading::specs::Expressions::grouped))]
fn grouped<E: Fn(&mut Cursor, u16, bool, Nested) -> Result<Read, Halt>>(
    cursor: &mut Cursor,
    room: u16,
    expression: &E,
) -> Result<Read, Halt>
    requires expressions { ReadsExpressions room (E.pre expression.now) (E.post expression.now) }
    ensures { Reads (grouped (inner room) cursor.old) result cursor.new }
{
    let inside = expression(cursor, room, false, Nested::Sequence)?;
    cursor.expect_mark(Punctuator::RightParenthesis)?;
    Ok(Read::left(inside.into_value()))
}

/// The fault where an expression has to begin and none does. A regular expression is outside the profile.
#[tactic(auto, using(es5_cursor::proofs::Rules::groups), unfolding(es5_reading::specs::Expressions::no_expression))]
pub fn no_expression(cursor: &Cursor) -> Result<Read, Halt>
    ensures { Reads (no_expression cursor.now) result cursor.now }
{
    if cursor.next_is_division() {
        Err(Halt::Stopped(Stop::Outside(4)))
    } else {
        Err(Halt::Stopped(Stop::Syntax))
    }
}

#[tactic(auto, using(es5_cursor::proofs::Rules::groups), unfolding(es5_reading::specs::Expressions::bracketed))]
fn bracketed<
    E: Fn(&mut Cursor, u16, bool, Nested) -> Result<Read, Halt>,
    S: Fn(&mut Cursor, u16, bool, bool) -> Result<Boxed<Stat5>, Halt>,
>(cursor: &mut Cursor, room: u16, begin: u32, expression: &E, statement: &S) -> Result<Read, Halt>
    requires expressions { ReadsExpressions room (E.pre expression.now) (E.post expression.now) }
    requires statements { ReadsStatements room (S.pre statement.now) (S.post statement.now) }
    ensures { Reads (bracketed (inner room) begin cursor.old) result cursor.new }
{
    if open(cursor, room, Punctuator::LeftBracket)? {
        let elements = elements::<E>(cursor, room, expression)?;
        let span = cursor.span_from(begin);
        return Ok(expressions::array(cursor.alloc(), span, elements)?);
    }
    if open(cursor, room, Punctuator::LeftBrace)? {
        let properties = properties::<E, S>(cursor, room, expression, statement)?;
        let span = cursor.span_from(begin);
        return Ok(expressions::object(cursor.alloc(), span, properties)?);
    }
    no_expression(cursor)
}

/// An expression of one token, if one is next (11.1.1 to 11.1.3).
#[tactic(auto, using(es5_cursor::proofs::Rules::groups), unfolding(crate::specs::Primaries::simple))]
#[inline(never)]
fn simple(cursor: &mut Cursor, begin: u32) -> Result<Option<Read>, Halt>
    ensures { Reads (simple begin cursor.old) result cursor.new }
{
    if cursor.take_word(b"this") {
        let span = cursor.span_from(begin);
        return Ok(Some(expressions::this(cursor.alloc(), span)?));
    }
    if let Some(name) = cursor.take_free_name()? {
        let span = cursor.span_from(begin);
        return Ok(Some(Read::bare(cursor.alloc(), span, name)?));
    }
    if let Some(literal) = cursor.take_literal()? {
        let span = cursor.span_from(begin);
        return Ok(Some(expressions::literal(cursor.alloc(), span, literal)?));
    }
    Ok(None)
}

/// A function or what stands in brackets (13, 11.1.4 to 11.1.6).
#[tactic(auto, using(es5_cursor::proofs::Rules::groups), unfolding(crate::specs::Primaries::enclosed))]
fn enclosed<
    E: Fn(&mut Cursor, u16, bool, Nested) -> Result<Read, Halt>,
    S: Fn(&mut Cursor, u16, bool, bool) -> Result<Boxed<Stat5>, Halt>,
>(cursor: &mut Cursor, room: u16, begin: u32, expression: &E, statement: &S) -> Result<Read, Halt>
    requires expressions { ReadsExpressions room (E.pre expression.now) (E.post expression.now) }
    requires statements { ReadsStatements room (S.pre statement.now) (S.post statement.now) }
    ensures { Reads (enclosed (inner room) begin cursor.old) result cursor.new }
{
    if cursor.take_word(b"function") {
        let function = function_expression::<S>(cursor, room, begin, statement)?;
        return Ok(expressions::function(cursor.alloc(), function)?);
    }
    if open(cursor, room, Punctuator::LeftParenthesis)? {
        return grouped::<E>(cursor, room, expression);
    }
    bracketed::<E, S>(cursor, room, begin, expression, statement)
}

/// A primary expression, which begins at the offset.
#[tactic(auto, using(crate::proofs::Primaries::primary_simple, crate::proofs::Primaries::primary_enclosed, crate::proofs::Primaries::primary_fault))]
pub fn primary<
    E: Fn(&mut Cursor, u16, bool, Nested) -> Result<Read, Halt>,
    S: Fn(&mut Cursor, u16, bool, bool) -> Result<Boxed<Stat5>, Halt>,
>(cursor: &mut Cursor, room: u16, begin: u32, expression: &E, statement: &S) -> Result<Read, Halt>
    requires expressions { ReadsExpressions room (E.pre expression.now) (E.post expression.now) }
    requires statements { ReadsStatements room (S.pre statement.now) (S.post statement.now) }
    ensures { Reads (primary (inner room) begin cursor.old) result cursor.new }
{
    if let Some(read) = simple(cursor, begin)? {
        return Ok(read);
    }
    enclosed::<E, S>(cursor, room, begin, expression, statement)
}
