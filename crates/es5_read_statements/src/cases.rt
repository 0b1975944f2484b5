//! The statement `switch` (ECMA-262, 5.1 edition, 12.11).

ghost use Rattle.std.specs.Prelude.{true, false};
ghost use Rattle.es5_cursor.specs.Nests.{ReadsExpressions, ReadsStatements};
ghost use Rattle.es5_cursor.specs.Reads.{Reads};
ghost use Rattle.es5_reading.specs.Statements.{case_clause, cases, default_clause, in_case, switch_statement};
ghost use Rattle.es5_cursor.specs.Readers.{inner};

use crate::ahead::ends_case;
use crate::compound::parenthesized;
use es5_ast::{Case5, Stat5};
use es5_cursor::{Cursor, Halt, Nested, Stop, TURNS, enter};
use es5_nodes::lists::push;
use es5_nodes::{Read, parts, statements};
use es5_tokens::Punctuator;
use sqlite_items::{Boxed, Items};

/// The statements of a clause.
#[tactic(auto, using(es5_cursor::proofs::Rules::lists, crate::proofs::StatementLists::in_case_turn, crate::proofs::StatementLists::in_case_more), unfolding(es5_reading::specs::Statements::in_case))]
fn in_case<S: Fn(&mut Cursor, u16, bool, bool) -> Result<Boxed<Stat5>, Halt>>(
    cursor: &mut Cursor,
    room: u16,
    inside: bool,
    statement: &S,
) -> Result<Items<Stat5>, Halt>
    requires statements { ReadsStatements room (S.pre statement.now) (S.post statement.now) }
    ensures { Reads (in_case (inner room) inside (inner room).fuel cursor.old) result cursor.new }
{
    let mut list = Items::new(cursor.alloc());
    for turn in 0..TURNS {
        if ends_case(cursor.rest()) {
            return Ok(list);
        }
        push(&mut list, statement(cursor, room, inside, false)?)?;
    }
    Err(Halt::Stopped(Stop::Endless))
}

/// What follows the word `case`.
#[tactic(auto, using(es5_cursor::proofs::Rules::groups), unfolding(es5_reading::specs::Statements::case_clause))]
fn case_clause<
    E: Fn(&mut Cursor, u16, bool, Nested) -> Result<Read, Halt>,
    S: Fn(&mut Cursor, u16, bool, bool) -> Result<Boxed<Stat5>, Halt>,
>(
    cursor: &mut Cursor,
    room: u16,
    inside: bool,
    begin: u32,
    expression: &E,
    statement: &S,
) -> Result<Boxed<Case5>, Halt>
    requires expressions { ReadsExpressions room (E.pre expression.now) (E.post expression.now) }
    requires statements { ReadsStatements room (S.pre statement.now) (S.post statement.now) }
    ensures { Reads (case_clause (inner room) inside begin cursor.old) result cursor.new }
{
    let test = expression(cursor, room, false, Nested::Sequence)?.into_value();
    cursor.expect_mark(Punctuator::Colon)?;
    let body = in_case::<S>(cursor, room, inside, statement)?;
    let span = cursor.span_from(begin);
    Ok(parts::case(cursor.alloc(), span, Some(test), body)?)
}

/// What follows the word `default`.
#[tactic(auto, using(es5_cursor::proofs::Rules::groups), unfolding(es5_reading::specs::Statements::default_clause))]
fn default_clause<S: Fn(&mut Cursor, u16, bool, bool) -> Result<Boxed<Stat5>, Halt>>(
    cursor: &mut Cursor,
    room: u16,
    inside: bool,
    begin: u32,
    statement: &S,
) -> Result<Boxed<Case5>, Halt>
    requires statements { ReadsStatements room (S.pre statement.now) (S.post statement.now) }
    ensures { Reads (default_clause (inner room) inside begin cursor.old) result cursor.new }
{
    cursor.expect_mark(Punctuator::Colon)?;
    let body = in_case::<S>(cursor, room, inside, statement)?;
    let span = cursor.span_from(begin);
    Ok(parts::case(cursor.alloc(), span, None, body)?)
}

/// The clauses after the opening brace, of which one may be the default, and the closing brace.
#[tactic(auto, using(es5_cursor::proofs::Rules::lists, crate::proofs::StatementLists::cases_turn, crate::proofs::StatementLists::case_more, crate::proofs::StatementLists::default_more), unfolding(es5_reading::specs::Statements::cases))]
fn cases<
    E: Fn(&mut Cursor, u16, bool, Nested) -> Result<Read, Halt>,
    S: Fn(&mut Cursor, u16, bool, bool) -> Result<Boxed<Stat5>, Halt>,
>(
    cursor: &mut Cursor,
    room: u16,
    inside: bool,
    expression: &E,
    statement: &S,
) -> Result<Items<Case5>, Halt>
    requires expressions { ReadsExpressions room (E.pre expression.now) (E.post expression.now) }
    requires statements { ReadsStatements room (S.pre statement.now) (S.post statement.now) }
    ensures { Reads (cases (inner room) inside true (inner room).fuel cursor.old) result cursor.new }
{
    let mut list = Items::new(cursor.alloc());
    let mut may_default = true;
    for turn in 0..TURNS {
        let begin = cursor.begin();
        if cursor.take_mark(Punctuator::RightBrace) {
            return Ok(list);
        }
        if cursor.take_word(b"case") {
            push(
                &mut list,
                case_clause::<E, S>(cursor, room, inside, begin, expression, statement)?,
            )?;
            continue;
        }
        if !may_default {
            return Err(Halt::Stopped(Stop::Syntax));
        }
        if !cursor.take_word(b"default") {
            return Err(Halt::Stopped(Stop::Syntax));
        }
        push(
            &mut list,
            default_clause::<S>(cursor, room, inside, begin, statement)?,
        )?;
        may_default = false;
    }
    Err(Halt::Stopped(Stop::Endless))
}

/// What follows the word `switch`.
#[tactic(auto, using(es5_cursor::proofs::Rules::groups), unfolding(es5_reading::specs::Statements::switch_statement))]
#[inline(never)]
pub fn switch_statement<
    E: Fn(&mut Cursor, u16, bool, Nested) -> Result<Read, Halt>,
    S: Fn(&mut Cursor, u16, bool, bool) -> Result<Boxed<Stat5>, Halt>,
>(
    cursor: &mut Cursor,
    room: u16,
    inside: bool,
    begin: u32,
    expression: &E,
    statement: &S,
) -> Result<Boxed<Stat5>, Halt>
    requires expressions { ReadsExpressions room (E.pre expression.now) (E.post expression.now) }
    requires statements { ReadsStatements room (S.pre statement.now) (S.post statement.now) }
    ensures { Reads (switch_statement (inner room) inside begin cursor.old) result cursor.new }
{
    let subject = parenthesized::<E>(cursor, room, expression)?;
    enter(cursor, room, Punctuator::LeftBrace)?;
    let cases = cases::<E, S>(cursor, room, inside, expression, statement)?;
    let span = cursor.span_from(begin);
    Ok(statements::switch(cursor.alloc(), span, subject, cases)?)
}
