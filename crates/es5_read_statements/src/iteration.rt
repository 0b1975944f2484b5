//! Loops (ECMA-262, 5.1 edition, 12.6).

ghost use Rattle.std.specs.Prelude.{◌≡◌, ◌&&◌};
ghost use Rattle.es5_cursor.specs.Nests.{ReadsExpressions, ReadsStatements};
ghost use Rattle.es5_cursor.specs.Reads.{Reads};
ghost use Rattle.es5_reading.specs.Statements.{after_first_declared, do_statement, for_expression, for_first_part, for_header, for_statement, for_var, optional, while_statement};
ghost use Rattle.es5_cursor.specs.Reads.{ReadsAs};
ghost use Rattle.es5_read_statements.specs.Parts.{header_of};
ghost use Rattle.es5_cursor.specs.Readers.{inner};
ghost use Rattle.es5_tokens.specs.Punctuators.{spelling};

use crate::compound::{parenthesized, under};
use crate::inner::inner_declared;
use crate::variables::more_declarations;
use es5_ast::{Declared5, Expr5, ForFirst5, Stat5};
use es5_cursor::{Cursor, Halt, Nested, Stop, enter, semicolon};
use es5_nodes::lists::push;
use es5_nodes::{Read, parts, statements};
use es5_tokens::Punctuator;
use sqlite_items::{Boxed, Items};

/// What follows the word `do` (12.6.1).
#[tactic(auto, using(es5_cursor::proofs::Rules::groups, es5_cursor::proofs::Endings::semicolon_is), unfolding(es5_reading::specs::Statements::do_statement))]
#[inline(never)]
pub fn do_statement<
    E: Fn(&mut Cursor, u16, bool, Nested) -> Result<Read, Halt>,
    S: Fn(&mut Cursor, u16, bool, bool) -> Result<Boxed<Stat5>, Halt>,
>(
    cursor: &mut Cursor,
    room: u16,
    inside: bool,
    begin: u32,
    expression: &E,
    statement: &S,
) -> Result<Boxed<Stat5>, Halt>
    requires expressions { ReadsExpressions room (E.pre expression.now) (E.post expression.now) }
    requires statements { ReadsStatements room (S.pre statement.now) (S.post statement.now) }
    ensures { Reads (do_statement (inner room) inside begin cursor.old) result cursor.new }
{
    let body = under::<S>(cursor, room, inside, statement)?;
    cursor.expect_word(b"while")?;
    let test = parenthesized::<E>(cursor, room, expression)?;
    semicolon(cursor)?;
    let span = cursor.span_from(begin);
    Ok(statements::do_while(cursor.alloc(), span, body, test)?)
}

/// What follows the word `while` (12.6.2).
#[tactic(auto, unfolding(es5_reading::specs::Statements::while_statement))]
#[inline(never)]
pub fn while_statement<
    E: Fn(&mut Cursor, u16, bool, Nested) -> Result<Read, Halt>,
    S: Fn(&mut Cursor, u16, bool, bool) -> Result<Boxed<Stat5>, Halt>,
>(
    cursor: &mut Cursor,
    room: u16,
    inside: bool,
    begin: u32,
    expression: &E,
    statement: &S,
) -> Result<Boxed<Stat5>, Halt>
    requires expressions { ReadsExpressions room (E.pre expression.now) (E.post expression.now) }
    requires statements { ReadsStatements room (S.pre statement.now) (S.post statement.now) }
    ensures { Reads (while_statement (inner room) inside begin cursor.old) result cursor.new }
{
    let test = parenthesized::<E>(cursor, room, expression)?;
    let body = under::<S>(cursor, room, inside, statement)?;
    let span = cursor.span_from(begin);
    Ok(statements::while_statement(cursor.alloc(), span, test, body)?)
}

/// The variables of a for header behind the first, and the semicolon (12.6.3).
#[tactic(auto, using(es5_cursor::proofs::Rules::groups), unfolding(es5_reading::specs::Statements::after_first_declared))]
fn after_first_declared<E: Fn(&mut Cursor, u16, bool, Nested) -> Result<Read, Halt>>(
    cursor: &mut Cursor,
    room: u16,
    first: Boxed<Declared5>,
    expression: &E,
) -> Result<Boxed<ForFirst5>, Halt>
    requires expressions { ReadsExpressions room (E.pre expression.now) (E.post expression.now) }
    ensures { Reads (after_first_declared (inner room) first cursor.old) result cursor.new }
{
    let mut declared = Items::new(cursor.alloc());
    push(&mut declared, first)?;
    if cursor.take_mark(Punctuator::Comma) {
        declared.append(more_declarations::<E>(cursor, room, expression)?)?;
        cursor.expect_mark(Punctuator::Semicolon)?;
        return Ok(parts::first_var(cursor.alloc(), declared)?);
    }
    cursor.expect_mark(Punctuator::Semicolon)?;
    Ok(parts::first_var(cursor.alloc(), declared)?)
}

/// What follows the word `var` in a for header. An `in` behind the first variable is outside the profile.
#[tactic(auto, using(es5_cursor::proofs::Rules::groups), unfolding(es5_reading::specs::Statements::for_var))]
fn for_var<E: Fn(&mut Cursor, u16, bool, Nested) -> Result<Read, Halt>>(
    cursor: &mut Cursor,
    room: u16,
    expression: &E,
) -> Result<Boxed<ForFirst5>, Halt>
    requires expressions { ReadsExpressions room (E.pre expression.now) (E.post expression.now) }
    ensures { Reads (for_var (inner room) cursor.old) result cursor.new }
{
    let first = inner_declared::<E>(cursor, room, true, expression)?;
    if cursor.next_is_word(b"in") {
        return Err(Halt::Stopped(Stop::Outside(3)));
    }
    after_first_declared::<E>(cursor, room, first, expression)
}

/// The expression that begins a for header. An `in` behind a left-hand-side expression is outside the profile.
#[tactic(auto, using(es5_cursor::proofs::Rules::groups, crate::proofs::ForIn::left_in), unfolding(es5_reading::specs::Statements::for_expression))]
fn for_expression<E: Fn(&mut Cursor, u16, bool, Nested) -> Result<Read, Halt>>(
    cursor: &mut Cursor,
    room: u16,
    expression: &E,
) -> Result<Boxed<ForFirst5>, Halt>
    requires expressions { ReadsExpressions room (E.pre expression.now) (E.post expression.now) }
    ensures { Reads (for_expression (inner room) cursor.old) result cursor.new }
{
    let first = expression(cursor, room, true, Nested::Sequence)?;
    let is_for_in = first.is_left() & cursor.next_is_word(b"in");
    if is_for_in {
        return Err(Halt::Stopped(Stop::Outside(3)));
    }
    cursor.expect_mark(Punctuator::Semicolon)?;
    Ok(parts::first_expression(cursor.alloc(), first.into_value())?)
}

/// What stands before the first semicolon of a for header, and that semicolon.
#[tactic(auto, using(es5_cursor::proofs::Rules::groups), unfolding(es5_reading::specs::Statements::for_first_part))]
fn for_first_part<E: Fn(&mut Cursor, u16, bool, Nested) -> Result<Read, Halt>>(
    cursor: &mut Cursor,
    room: u16,
    expression: &E,
) -> Result<Boxed<ForFirst5>, Halt>
    requires expressions { ReadsExpressions room (E.pre expression.now) (E.post expression.now) }
    ensures { Reads (for_first_part (inner room) cursor.old) result cursor.new }
{
    if cursor.take_mark(Punctuator::Semicolon) {
        return Ok(parts::no_first(cursor.alloc())?);
    }
    if cursor.take_word(b"var") {
        return for_var::<E>(cursor, room, expression);
    }
    for_expression::<E>(cursor, room, expression)
}

/// An expression, if there is one, and the mark behind it.
#[tactic(auto, using(es5_cursor::proofs::Rules::groups), unfolding(es5_reading::specs::Statements::optional))]
fn optional<E: Fn(&mut Cursor, u16, bool, Nested) -> Result<Read, Halt>>(
    cursor: &mut Cursor,
    room: u16,
    punctuator: Punctuator,
    expression: &E,
) -> Result<Option<Boxed<Expr5>>, Halt>
    requires expressions { ReadsExpressions room (E.pre expression.now) (E.post expression.now) }
    ensures { Reads (optional (inner room) (spelling punctuator) cursor.old) result cursor.new }
{
    if cursor.take_mark(punctuator) {
        return Ok(None);
    }
    let value = expression(cursor, room, false, Nested::Sequence)?.into_value();
    cursor.expect_mark(punctuator)?;
    Ok(Some(value))
}

/// What stands between the parentheses of a for statement.
#[derive(Drop)]
pub struct Header {
    pub first: Boxed<ForFirst5>,
    pub test: Option<Boxed<Expr5>>,
    pub update: Option<Boxed<Expr5>>,
}

#[tactic(auto, unfolding(es5_reading::specs::Statements::for_header))]
fn for_header<E: Fn(&mut Cursor, u16, bool, Nested) -> Result<Read, Halt>>(
    cursor: &mut Cursor,
    room: u16,
    expression: &E,
) -> Result<Header, Halt>
    requires expressions { ReadsExpressions room (E.pre expression.now) (E.post expression.now) }
    ensures { ReadsAs header_of (for_header (inner room) cursor.old) result cursor.new }
{
    let first = for_first_part::<E>(cursor, room, expression)?;
    let test = optional::<E>(cursor, room, Punctuator::Semicolon, expression)?;
    let update = optional::<E>(cursor, room, Punctuator::RightParenthesis, expression)?;
    Ok(Header {
        first,
        test,
        update,
    })
}

/// What follows the word `for` (12.6.3).
#[tactic(auto, using(es5_cursor::proofs::Rules::groups), unfolding(es5_reading::specs::Statements::for_statement))]
#[inline(never)]
pub fn for_statement<
    E: Fn(&mut Cursor, u16, bool, Nested) -> Result<Read, Halt>,
    S: Fn(&mut Cursor, u16, bool, bool) -> Result<Boxed<Stat5>, Halt>,
>(
    cursor: &mut Cursor,
    room: u16,
    inside: bool,
    begin: u32,
    expression: &E,
    statement: &S,
) -> Result<Boxed<Stat5>, Halt>
    requires expressions { ReadsExpressions room (E.pre expression.now) (E.post expression.now) }
    requires statements { ReadsStatements room (S.pre statement.now) (S.post statement.now) }
    ensures { Reads (for_statement (inner room) inside begin cursor.old) result cursor.new }
{
    enter(cursor, room, Punctuator::LeftParenthesis)?;
    let header = for_header::<E>(cursor, room, expression)?;
    let body = under::<S>(cursor, room, inside, statement)?;
    let Header {
        first,
        test,
        update,
    } = header;
    let span = cursor.span_from(begin);
    Ok(statements::for_statement(cursor.alloc(), span, first, test, update, body)?)
}
