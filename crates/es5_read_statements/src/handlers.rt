//! The statement `try` (ECMA-262, 5.1 edition, 12.14).

ghost use Rattle.es5_cursor.specs.Nests.{ReadsStatements};
ghost use Rattle.es5_cursor.specs.Reads.{Reads};
ghost use Rattle.es5_reading.specs.Statements.{after_handler, catch_parameter, handler, only_finally, try_statement};
ghost use Rattle.es5_cursor.specs.Readers.{inner};

use crate::compound::block;
use es5_ast::{Block5, Catch5, Identifier5, Stat5};
use es5_cursor::names::identifier;
use es5_cursor::{Cursor, Halt, enter};
use es5_nodes::{parts, statements};
use es5_tokens::Punctuator;
use sqlite_items::Boxed;

/// The parameter of a catch, and the closing parenthesis.
#[tactic(auto, unfolding(es5_reading::specs::Statements::catch_parameter))]
fn catch_parameter(cursor: &mut Cursor) -> Result<Identifier5, Halt>
    ensures { Reads (catch_parameter cursor.old) result cursor.new }
{
    let parameter = identifier(cursor)?;
    cursor.expect_mark(Punctuator::RightParenthesis)?;
    Ok(parameter)
}

/// A catch.
#[tactic(auto, using(es5_cursor::proofs::Rules::groups), unfolding(es5_reading::specs::Statements::handler))]
fn handler<S: Fn(&mut Cursor, u16, bool, bool) -> Result<Boxed<Stat5>, Halt>>(
    cursor: &mut Cursor,
    room: u16,
    inside: bool,
    statement: &S,
) -> Result<Boxed<Catch5>, Halt>
    requires statements { ReadsStatements room (S.pre statement.now) (S.post statement.now) }
    ensures { Reads (handler (inner room) inside cursor.old) result cursor.new }
{
    let begin = cursor.begin();
    cursor.expect_word(b"catch")?;
    enter(cursor, room, Punctuator::LeftParenthesis)?;
    let parameter = catch_parameter(cursor)?;
    let body = block::<S>(cursor, room, inside, statement)?;
    let span = cursor.span_from(begin);
    Ok(parts::catch(cursor.alloc(), span, parameter, body)?)
}

/// The finally behind a catch, if there is one.
#[tactic(auto, using(es5_cursor::proofs::Rules::groups), unfolding(es5_reading::specs::Statements::after_handler))]
fn after_handler<S: Fn(&mut Cursor, u16, bool, bool) -> Result<Boxed<Stat5>, Halt>>(
    cursor: &mut Cursor,
    room: u16,
    inside: bool,
    begin: u32,
    tried: Block5,
    catch: Boxed<Catch5>,
    statement: &S,
) -> Result<Boxed<Stat5>, Halt>
    requires statements { ReadsStatements room (S.pre statement.now) (S.post statement.now) }
    ensures { Reads (after_handler (inner room) inside begin tried catch cursor.old) result cursor.new }
{
    if !cursor.take_word(b"finally") {
        let span = cursor.span_from(begin);
        return Ok(statements::try_catch(cursor.alloc(), span, tried, catch)?);
    }
    let finally = block::<S>(cursor, room, inside, statement)?;
    let span = cursor.span_from(begin);
    Ok(statements::try_catch_finally(cursor.alloc(), span, tried, catch, finally)?)
}

/// The finally behind a block with no catch.
#[tactic(auto, unfolding(es5_reading::specs::Statements::only_finally))]
fn only_finally<S: Fn(&mut Cursor, u16, bool, bool) -> Result<Boxed<Stat5>, Halt>>(
    cursor: &mut Cursor,
    room: u16,
    inside: bool,
    begin: u32,
    tried: Block5,
    statement: &S,
) -> Result<Boxed<Stat5>, Halt>
    requires statements { ReadsStatements room (S.pre statement.now) (S.post statement.now) }
    ensures { Reads (only_finally (inner room) inside begin tried cursor.old) result cursor.new }
{
    cursor.expect_word(b"finally")?;
    let finally = block::<S>(cursor, room, inside, statement)?;
    let span = cursor.span_from(begin);
    Ok(statements::try_finally(cursor.alloc(), span, tried, finally)?)
}

/// What follows the word `try`.
#[tactic(auto, using(es5_cursor::proofs::Rules::groups), unfolding(es5_reading::specs::Statements::try_statement))]
#[inline(never)]
pub fn try_statement<S: Fn(&mut Cursor, u16, bool, bool) -> Result<Boxed<Stat5>, Halt>>(
    cursor: &mut Cursor,
    room: u16,
    inside: bool,
    begin: u32,
    statement: &S,
) -> Result<Boxed<Stat5>, Halt>
    requires statements { ReadsStatements room (S.pre statement.now) (S.post statement.now) }
    ensures { Reads (try_statement (inner room) inside begin cursor.old) result cursor.new }
{
    let tried = block::<S>(cursor, room, inside, statement)?;
    if cursor.next_is_word(b"catch") {
        let catch = handler::<S>(cursor, room, inside, statement)?;
        return after_handler::<S>(cursor, room, inside, begin, tried, catch, statement);
    }
    only_finally::<S>(cursor, room, inside, begin, tried, statement)
}
