//! Blocks and conditions (ECMA-262, 5.1 edition, 12.1, 12.5).

ghost use Rattle.std.specs.Prelude.{false};
ghost use Rattle.es5_cursor.specs.Nests.{ReadsExpressions, ReadsStatements};
ghost use Rattle.es5_cursor.specs.Reads.{Reads};
ghost use Rattle.es5_reading.specs.Statements.{block, block_statement, condition, if_statement, otherwise, parenthesized};
ghost use Rattle.es5_cursor.specs.Reads.{ReadsAs};
ghost use Rattle.es5_read_statements.specs.Parts.{otherwise_of};
ghost use Rattle.es5_cursor.specs.Readers.{inner};

use es5_ast::{Block5, Condition5, Expr5, Stat5};
use es5_cursor::{Cursor, Halt, Nested, Stop, TURNS, enter};
use es5_nodes::lists::push;
use es5_nodes::{Read, parts};
use es5_read_expressions::statements;
use es5_tokens::Punctuator;
use sqlite_items::{Boxed, Items};

/// Statements in braces (12.1).
#[tactic(auto, using(es5_cursor::proofs::Rules::groups), unfolding(es5_reading::specs::Statements::block))]
pub fn block<S: Fn(&mut Cursor, u16, bool, bool) -> Result<Boxed<Stat5>, Halt>>(
    cursor: &mut Cursor,
    room: u16,
    inside: bool,
    statement: &S,
) -> Result<Block5, Halt>
    requires statements { ReadsStatements room (S.pre statement.now) (S.post statement.now) }
    ensures { Reads (block (inner room) inside cursor.old) result cursor.new }
{
    let begin = cursor.begin();
    enter(cursor, room, Punctuator::LeftBrace)?;
    let statements = statements::<S>(cursor, room, inside, false, statement)?;
    Ok(Block5 {
        span: cursor.span_from(begin),
        statements,
    })
}

#[tactic(auto, unfolding(es5_reading::specs::Statements::block_statement))]
#[inline(never)]
pub fn block_statement<S: Fn(&mut Cursor, u16, bool, bool) -> Result<Boxed<Stat5>, Halt>>(
    cursor: &mut Cursor,
    room: u16,
    inside: bool,
    statement: &S,
) -> Result<Boxed<Stat5>, Halt>
    requires statements { ReadsStatements room (S.pre statement.now) (S.post statement.now) }
    ensures { Reads (block_statement (inner room) inside cursor.old) result cursor.new }
{
    let block = block::<S>(cursor, room, inside, statement)?;
    Ok(es5_nodes::statements::block(cursor.alloc(), block)?)
}

/// The statement under another.
pub fn under<S: Fn(&mut Cursor, u16, bool, bool) -> Result<Boxed<Stat5>, Halt>>(
    cursor: &mut Cursor,
    room: u16,
    inside: bool,
    statement: &S,
) -> Result<Boxed<Stat5>, Halt>
    requires statements { ReadsStatements room (S.pre statement.now) (S.post statement.now) }
    ensures { Reads ((inner room).statement inside false cursor.old) result cursor.new }
{
    statement(cursor, room, inside, false)
}

/// An expression in parentheses.
#[tactic(auto, using(es5_cursor::proofs::Rules::groups), unfolding(es5_reading::specs::Statements::parenthesized))]
pub fn parenthesized<E: Fn(&mut Cursor, u16, bool, Nested) -> Result<Read, Halt>>(
    cursor: &mut Cursor,
    room: u16,
    expression: &E,
) -> Result<Boxed<Expr5>, Halt>
    requires expressions { ReadsExpressions room (E.pre expression.now) (E.post expression.now) }
    ensures { Reads (parenthesized (inner room) cursor.old) result cursor.new }
{
    enter(cursor, room, Punctuator::LeftParenthesis)?;
    let value = expression(cursor, room, false, Nested::Sequence)?.into_value();
    cursor.expect_mark(Punctuator::RightParenthesis)?;
    Ok(value)
}

/// From `if` to the end of the statement under it (12.5).
#[tactic(auto, using(es5_cursor::proofs::Rules::groups), unfolding(es5_reading::specs::Statements::condition))]
fn condition<
    E: Fn(&mut Cursor, u16, bool, Nested) -> Result<Read, Halt>,
    S: Fn(&mut Cursor, u16, bool, bool) -> Result<Boxed<Stat5>, Halt>,
>(
    cursor: &mut Cursor,
    room: u16,
    inside: bool,
    expression: &E,
    statement: &S,
) -> Result<Boxed<Condition5>, Halt>
    requires expressions { ReadsExpressions room (E.pre expression.now) (E.post expression.now) }
    requires statements { ReadsStatements room (S.pre statement.now) (S.post statement.now) }
    ensures { Reads (condition (inner room) inside cursor.old) result cursor.new }
{
    let begin = cursor.begin();
    cursor.expect_word(b"if")?;
    let test = parenthesized::<E>(cursor, room, expression)?;
    let body = under::<S>(cursor, room, inside, statement)?;
    let span = cursor.span_from(begin);
    Ok(parts::condition(cursor.alloc(), span, test, body)?)
}

/// What follows the first condition of a chain: each `else if`, and the statement under the last `else`.
#[derive(Drop)]
pub struct Alternatives {
    pub more: Items<Condition5>,
    pub last: Option<Boxed<Stat5>>,
}

/// Each `else` behind a condition.
#[tactic(auto, using(es5_cursor::proofs::Rules::lists, crate::proofs::StatementLists::otherwise_none, crate::proofs::StatementLists::otherwise_last, crate::proofs::StatementLists::otherwise_last_fault, crate::proofs::StatementLists::otherwise_more, crate::proofs::StatementLists::otherwise_more_fault, crate::proofs::StatementLists::otherwise_endless, crate::proofs::StatementLists::otherwise_begin))]
fn otherwise<
    E: Fn(&mut Cursor, u16, bool, Nested) -> Result<Read, Halt>,
    S: Fn(&mut Cursor, u16, bool, bool) -> Result<Boxed<Stat5>, Halt>,
>(
    cursor: &mut Cursor,
    room: u16,
    inside: bool,
    expression: &E,
    statement: &S,
) -> Result<Alternatives, Halt>
    requires expressions { ReadsExpressions room (E.pre expression.now) (E.post expression.now) }
    requires statements { ReadsStatements room (S.pre statement.now) (S.post statement.now) }
    ensures { ReadsAs otherwise_of (otherwise (inner room) inside (inner room).fuel cursor.old) result cursor.new }
{
    let mut more = Items::new(cursor.alloc());
    for turn in 0..TURNS {
        if !cursor.take_word(b"else") {
            return Ok(Alternatives { more, last: None });
        }
        if !cursor.next_is_word(b"if") {
            let last = under::<S>(cursor, room, inside, statement)?;
            return Ok(Alternatives {
                more,
                last: Some(last),
            });
        }
        push(
            &mut more,
            condition::<E, S>(cursor, room, inside, expression, statement)?,
        )?;
    }
    Err(Halt::Stopped(Stop::Endless))
}

#[tactic(auto, unfolding(es5_reading::specs::Statements::if_statement))]
#[inline(never)]
pub fn if_statement<
    E: Fn(&mut Cursor, u16, bool, Nested) -> Result<Read, Halt>,
    S: Fn(&mut Cursor, u16, bool, bool) -> Result<Boxed<Stat5>, Halt>,
>(
    cursor: &mut Cursor,
    room: u16,
    inside: bool,
    begin: u32,
    expression: &E,
    statement: &S,
) -> Result<Boxed<Stat5>, Halt>
    requires expressions { ReadsExpressions room (E.pre expression.now) (E.post expression.now) }
    requires statements { ReadsStatements room (S.pre statement.now) (S.post statement.now) }
    ensures { Reads (if_statement (inner room) inside begin cursor.old) result cursor.new }
{
    let first = condition::<E, S>(cursor, room, inside, expression, statement)?;
    let Alternatives { more, last } = otherwise::<E, S>(
        cursor, room, inside, expression, statement,
    )?;
    let span = cursor.span_from(begin);
    Ok(es5_nodes::statements::if_statement(cursor.alloc(), span, first, more, last)?)
}
