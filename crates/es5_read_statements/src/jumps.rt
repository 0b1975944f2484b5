//! Jumps, and the statement `debugger` (ECMA-262, 5.1 edition, 12.7 to 12.9, 12.13, 12.15).

ghost use Rattle.es5_cursor.specs.Nests.{ReadsExpressions, ReadsStatements};
ghost use Rattle.es5_cursor.specs.Reads.{Reads};
ghost use Rattle.es5_reading.specs.Statements.{break_statement, continue_statement, debugger_statement, return_statement, returned, throw_statement};
ghost use Rattle.es5_cursor.specs.Readers.{inner};

use crate::ahead::goes_on;
use es5_ast::{Expr5, Stat5};
use es5_cursor::{Cursor, Halt, Nested, Stop, begins_line, optional_label, semicolon};
use es5_nodes::{Read, statements};
use es5_read_expressions::sequence;
use sqlite_items::Boxed;

/// What follows the word `continue` (12.7).
#[tactic(auto, using(es5_cursor::proofs::Endings::semicolon_is), unfolding(es5_reading::specs::Statements::continue_statement))]
#[inline(never)]
pub fn continue_statement(cursor: &mut Cursor, room: u16, begin: u32) -> Result<Boxed<Stat5>, Halt>
    ensures { Reads (continue_statement (inner room) begin cursor.old) result cursor.new }
{
    let label = optional_label(cursor)?;
    semicolon(cursor)?;
    let span = cursor.span_from(begin);
    Ok(statements::continue_statement(cursor.alloc(), span, label)?)
}

/// What follows the word `break` (12.8).
#[tactic(auto, using(es5_cursor::proofs::Endings::semicolon_is), unfolding(es5_reading::specs::Statements::break_statement))]
#[inline(never)]
pub fn break_statement(cursor: &mut Cursor, room: u16, begin: u32) -> Result<Boxed<Stat5>, Halt>
    ensures { Reads (break_statement (inner room) begin cursor.old) result cursor.new }
{
    let label = optional_label(cursor)?;
    semicolon(cursor)?;
    let span = cursor.span_from(begin);
    Ok(statements::break_statement(cursor.alloc(), span, label)?)
}

/// The value of a `return`, if it has one.
#[tactic(auto, using(es5_cursor::proofs::Rules::groups), unfolding(es5_reading::specs::Statements::returned))]
fn returned<
    E: Fn(&mut Cursor, u16, bool, Nested) -> Result<Read, Halt>,
    S: Fn(&mut Cursor, u16, bool, bool) -> Result<Boxed<Stat5>, Halt>,
>(
    cursor: &mut Cursor,
    room: u16,
    expression: &E,
    statement: &S,
) -> Result<Option<Boxed<Expr5>>, Halt>
    requires expressions { ReadsExpressions room (E.pre expression.now) (E.post expression.now) }
    requires statements { ReadsStatements room (S.pre statement.now) (S.post statement.now) }
    ensures { Reads (returned (inner room) cursor.old) result cursor.new }
{
    if goes_on(cursor.rest()) {
        let value = sequence::<E, S>(cursor, room, false, expression, statement)?.into_value();
        return Ok(Some(value));
    }
    Ok(None)
}

/// What follows the word `return` (12.9).
#[tactic(auto, using(es5_cursor::proofs::Endings::semicolon_is), unfolding(es5_reading::specs::Statements::return_statement))]
#[inline(never)]
pub fn return_statement<
    E: Fn(&mut Cursor, u16, bool, Nested) -> Result<Read, Halt>,
    S: Fn(&mut Cursor, u16, bool, bool) -> Result<Boxed<Stat5>, Halt>,
>(
    cursor: &mut Cursor,
    room: u16,
    begin: u32,
    expression: &E,
    statement: &S,
) -> Result<Boxed<Stat5>, Halt>
    requires expressions { ReadsExpressions room (E.pre expression.now) (E.post expression.now) }
    requires statements { ReadsStatements room (S.pre statement.now) (S.post statement.now) }
    ensures { Reads (return_statement (inner room) begin cursor.old) result cursor.new }
{
    let value = returned::<E, S>(cursor, room, expression, statement)?;
    semicolon(cursor)?;
    let span = cursor.span_from(begin);
    Ok(statements::return_statement(cursor.alloc(), span, value)?)
}

/// What follows the word `throw`, on its line (12.13).
#[tactic(auto, using(es5_cursor::proofs::Rules::groups, es5_cursor::proofs::Endings::semicolon_is), unfolding(es5_reading::specs::Statements::throw_statement))]
#[inline(never)]
pub fn throw_statement<
    E: Fn(&mut Cursor, u16, bool, Nested) -> Result<Read, Halt>,
    S: Fn(&mut Cursor, u16, bool, bool) -> Result<Boxed<Stat5>, Halt>,
>(
    cursor: &mut Cursor,
    room: u16,
    begin: u32,
    expression: &E,
    statement: &S,
) -> Result<Boxed<Stat5>, Halt>
    requires expressions { ReadsExpressions room (E.pre expression.now) (E.post expression.now) }
    requires statements { ReadsStatements room (S.pre statement.now) (S.post statement.now) }
    ensures { Reads (throw_statement (inner room) begin cursor.old) result cursor.new }
{
    if begins_line(cursor.rest()) {
        return Err(Halt::Stopped(Stop::Syntax));
    }
    let value = sequence::<E, S>(cursor, room, false, expression, statement)?.into_value();
    semicolon(cursor)?;
    let span = cursor.span_from(begin);
    Ok(statements::throw(cursor.alloc(), span, value)?)
}

/// What follows the word `debugger` (12.15).
#[tactic(auto, using(es5_cursor::proofs::Endings::semicolon_is), unfolding(es5_reading::specs::Statements::debugger_statement))]
#[inline(never)]
pub fn debugger_statement(cursor: &mut Cursor, room: u16, begin: u32) -> Result<Boxed<Stat5>, Halt>
    ensures { Reads (debugger_statement (inner room) begin cursor.old) result cursor.new }
{
    semicolon(cursor)?;
    let span = cursor.span_from(begin);
    Ok(statements::debugger(cursor.alloc(), span)?)
}
