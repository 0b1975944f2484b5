//! Statements (ECMA-262, 5.1 edition, 12).

ghost use Rattle.std.specs.Prelude.{Some};
ghost use Rattle.es5_cursor.specs.Nests.{ReadsExpressions, ReadsStatements};
ghost use Rattle.es5_cursor.specs.Reads.{Reads};
ghost use Rattle.es5_reading.specs.Statements.{compound_statement, declaration, expression_end, expression_statement, jump_statement, label_of, label_or_end, labelled, plain_statement, statement as any_statement};
ghost use Rattle.es5_cursor.specs.Readers.{inner};

use crate::cases::switch_statement;
use crate::compound::{block_statement, if_statement, under};
use crate::handlers::try_statement;
use crate::iteration::{do_statement, for_statement, while_statement};
use crate::jumps::{
    break_statement, continue_statement, debugger_statement, return_statement, throw_statement,
};
use crate::variables::var_statement;
use es5_ast::{Expr5, Identifier5, Stat5};
use es5_cursor::{Cursor, Halt, Nested, Stop, semicolon};
use es5_nodes::{Read, statements};
use es5_read_expressions::{named, rest_of_function, sequence};
use es5_tokens::Punctuator;
use sqlite_items::Boxed;

/// What follows the word `function` in a declaration (13).
#[tactic(auto, unfolding(es5_reading::specs::Statements::declaration))]
#[inline(never)]
fn declaration<S: Fn(&mut Cursor, u16, bool, bool) -> Result<Boxed<Stat5>, Halt>>(
    cursor: &mut Cursor,
    room: u16,
    begin: u32,
    statement: &S,
) -> Result<Boxed<Stat5>, Halt>
    requires statements { ReadsStatements room (S.pre statement.now) (S.post statement.now) }
    ensures { Reads (declaration (inner room) begin cursor.old) result cursor.new }
{
    let name = named(cursor)?;
    let function = rest_of_function::<S>(cursor, room, begin, Some(name), statement)?;
    Ok(statements::declaration(cursor.alloc(), function)?)
}

/// The end of an expression as a statement (12.4).
#[tactic(auto, using(es5_cursor::proofs::Endings::semicolon_is), unfolding(es5_reading::specs::Statements::expression_end))]
#[inline(never)]
fn expression_end(
    cursor: &mut Cursor,
    room: u16,
    begin: u32,
    expression: Boxed<Expr5>,
) -> Result<Boxed<Stat5>, Halt>
    ensures { Reads (expression_end (inner room) begin expression cursor.old) result cursor.new }
{
    semicolon(cursor)?;
    let span = cursor.span_from(begin);
    Ok(statements::expression(cursor.alloc(), span, expression)?)
}

/// The statement behind a label and its colon (12.12).
#[tactic(auto, unfolding(es5_reading::specs::Statements::labelled))]
#[inline(never)]
fn labelled<S: Fn(&mut Cursor, u16, bool, bool) -> Result<Boxed<Stat5>, Halt>>(
    cursor: &mut Cursor,
    room: u16,
    inside: bool,
    begin: u32,
    label: Identifier5,
    statement: &S,
) -> Result<Boxed<Stat5>, Halt>
    requires statements { ReadsStatements room (S.pre statement.now) (S.post statement.now) }
    ensures { Reads (labelled (inner room) inside begin label cursor.old) result cursor.new }
{
    let body = under::<S>(cursor, room, inside, statement)?;
    let span = cursor.span_from(begin);
    Ok(statements::labelled(cursor.alloc(), span, label, body)?)
}

/// What follows an identifier that is the whole of an expression: it may be a label.
#[tactic(auto, using(es5_cursor::proofs::Rules::groups))]
fn label_or_end<S: Fn(&mut Cursor, u16, bool, bool) -> Result<Boxed<Stat5>, Halt>>(
    cursor: &mut Cursor,
    room: u16,
    inside: bool,
    begin: u32,
    label: Identifier5,
    expression: Boxed<Expr5>,
    statement: &S,
) -> Result<Boxed<Stat5>, Halt>
    requires statements { ReadsStatements room (S.pre statement.now) (S.post statement.now) }
    ensures { Reads (label_or_end (inner room) inside begin (Some label) expression cursor.old) result cursor.new }
{
    if cursor.take_mark(Punctuator::Colon) {
        return labelled::<S>(cursor, room, inside, begin, label, statement);
    }
    expression_end(cursor, room, begin, expression)
}

/// What follows an expression: it may be a label.
#[inline(never)]
fn after_expression<S: Fn(&mut Cursor, u16, bool, bool) -> Result<Boxed<Stat5>, Halt>>(
    cursor: &mut Cursor,
    room: u16,
    inside: bool,
    begin: u32,
    read: Read,
    statement: &S,
) -> Result<Boxed<Stat5>, Halt>
    requires statements { ReadsStatements room (S.pre statement.now) (S.post statement.now) }
    ensures { Reads (label_or_end (inner room) inside begin (label_of read.shape read.value) read.value cursor.old) result cursor.new }
{
    let label = read.label(cursor.alloc())?;
    let value = read.into_value();
    match label {
        Some(label) => label_or_end::<S>(cursor, room, inside, begin, label, value, statement),
        None => expression_end(cursor, room, begin, value),
    }
}

/// An expression as a statement, or a statement with a label.
#[tactic(auto, unfolding(es5_reading::specs::Statements::expression_statement))]
fn expression_statement<
    E: Fn(&mut Cursor, u16, bool, Nested) -> Result<Read, Halt>,
    S: Fn(&mut Cursor, u16, bool, bool) -> Result<Boxed<Stat5>, Halt>,
>(
    cursor: &mut Cursor,
    room: u16,
    inside: bool,
    begin: u32,
    expression: &E,
    statement: &S,
) -> Result<Boxed<Stat5>, Halt>
    requires expressions { ReadsExpressions room (E.pre expression.now) (E.post expression.now) }
    requires statements { ReadsStatements room (S.pre statement.now) (S.post statement.now) }
    ensures { Reads (expression_statement (inner room) inside begin cursor.old) result cursor.new }
{
    let read = sequence::<E, S>(cursor, room, false, expression, statement)?;
    after_expression::<S>(cursor, room, inside, begin, read, statement)
}

/// A declaration of a function where one may stand, or an expression. A `with` is outside the profile.
#[tactic(auto, using(es5_cursor::proofs::Rules::groups), unfolding(es5_reading::specs::Statements::plain_statement))]
fn plain_statement<
    E: Fn(&mut Cursor, u16, bool, Nested) -> Result<Read, Halt>,
    S: Fn(&mut Cursor, u16, bool, bool) -> Result<Boxed<Stat5>, Halt>,
>(
    cursor: &mut Cursor,
    room: u16,
    inside: bool,
    top: bool,
    begin: u32,
    expression: &E,
    statement: &S,
) -> Result<Boxed<Stat5>, Halt>
    requires expressions { ReadsExpressions room (E.pre expression.now) (E.post expression.now) }
    requires statements { ReadsStatements room (S.pre statement.now) (S.post statement.now) }
    ensures { Reads (plain_statement (inner room) inside top begin cursor.old) result cursor.new }
{
    if cursor.next_is_word(b"function") {
        if !top {
            return Err(Halt::Stopped(Stop::Syntax));
        }
        cursor.expect_word(b"function")?;
        return declaration::<S>(cursor, room, begin, statement);
    }
    if cursor.next_is_word(b"with") {
        return Err(Halt::Stopped(Stop::Outside(2)));
    }
    expression_statement::<E, S>(cursor, room, inside, begin, expression, statement)
}

#[tactic(auto, using(es5_cursor::proofs::Rules::groups), unfolding(es5_reading::specs::Statements::jump_statement))]
#[inline(always)]
fn jump_statement<
    E: Fn(&mut Cursor, u16, bool, Nested) -> Result<Read, Halt>,
    S: Fn(&mut Cursor, u16, bool, bool) -> Result<Boxed<Stat5>, Halt>,
>(
    cursor: &mut Cursor,
    room: u16,
    inside: bool,
    top: bool,
    begin: u32,
    expression: &E,
    statement: &S,
) -> Result<Boxed<Stat5>, Halt>
    requires expressions { ReadsExpressions room (E.pre expression.now) (E.post expression.now) }
    requires statements { ReadsStatements room (S.pre statement.now) (S.post statement.now) }
    ensures { Reads (jump_statement (inner room) inside top begin cursor.old) result cursor.new }
{
    if cursor.take_word(b"continue") {
        return continue_statement(cursor, room, begin);
    }
    if cursor.take_word(b"break") {
        return break_statement(cursor, room, begin);
    }
    if cursor.take_word(b"throw") {
        return throw_statement::<E, S>(cursor, room, begin, expression, statement);
    }
    if cursor.take_word(b"debugger") {
        return debugger_statement(cursor, room, begin);
    }
    if !inside {
        return plain_statement::<E, S>(cursor, room, inside, top, begin, expression, statement);
    }
    if cursor.take_word(b"return") {
        return return_statement::<E, S>(cursor, room, begin, expression, statement);
    }
    plain_statement::<E, S>(cursor, room, inside, top, begin, expression, statement)
}

#[tactic(auto, using(es5_cursor::proofs::Rules::groups), unfolding(es5_reading::specs::Statements::compound_statement))]
fn compound_statement<
    E: Fn(&mut Cursor, u16, bool, Nested) -> Result<Read, Halt>,
    S: Fn(&mut Cursor, u16, bool, bool) -> Result<Boxed<Stat5>, Halt>,
>(
    cursor: &mut Cursor,
    room: u16,
    inside: bool,
    top: bool,
    begin: u32,
    expression: &E,
    statement: &S,
) -> Result<Boxed<Stat5>, Halt>
    requires expressions { ReadsExpressions room (E.pre expression.now) (E.post expression.now) }
    requires statements { ReadsStatements room (S.pre statement.now) (S.post statement.now) }
    ensures { Reads (compound_statement (inner room) inside top begin cursor.old) result cursor.new }
{
    if cursor.take_word(b"do") {
        return do_statement::<E, S>(cursor, room, inside, begin, expression, statement);
    }
    if cursor.take_word(b"while") {
        return while_statement::<E, S>(cursor, room, inside, begin, expression, statement);
    }
    if cursor.take_word(b"for") {
        return for_statement::<E, S>(cursor, room, inside, begin, expression, statement);
    }
    if cursor.take_word(b"switch") {
        return switch_statement::<E, S>(cursor, room, inside, begin, expression, statement);
    }
    if cursor.take_word(b"try") {
        return try_statement::<S>(cursor, room, inside, begin, statement);
    }
    jump_statement::<E, S>(cursor, room, inside, top, begin, expression, statement)
}

/// A statement, or a declaration of a function where `top` lets one stand.
#[tactic(auto, using(es5_cursor::proofs::Rules::groups), unfolding(es5_reading::specs::Statements::statement))]
pub fn statement<
    E: Fn(&mut Cursor, u16, bool, Nested) -> Result<Read, Halt>,
    S: Fn(&mut Cursor, u16, bool, bool) -> Result<Boxed<Stat5>, Halt>,
>(
    cursor: &mut Cursor,
    room: u16,
    inside: bool,
    top: bool,
    expression: &E,
    statement: &S,
) -> Result<Boxed<Stat5>, Halt>
    requires expressions { ReadsExpressions room (E.pre expression.now) (E.post expression.now) }
    requires statements { ReadsStatements room (S.pre statement.now) (S.post statement.now) }
    ensures { Reads (any_statement (inner room) inside top cursor.old) result cursor.new }
{
    let begin = cursor.begin();
    if cursor.next_is_mark(Punctuator::LeftBrace) {
        return block_statement::<S>(cursor, room, inside, statement);
    }
    if cursor.next_is_word(b"if") {
        return if_statement::<E, S>(cursor, room, inside, begin, expression, statement);
    }
    if cursor.take_mark(Punctuator::Semicolon) {
        let span = cursor.span_from(begin);
        return Ok(statements::empty(cursor.alloc(), span)?);
    }
    if cursor.take_word(b"var") {
        return var_statement::<E>(cursor, room, begin, expression);
    }
    compound_statement::<E, S>(cursor, room, inside, top, begin, expression, statement)
}
