//! Functions, and the accessors of object literals (ECMA-262, 5.1 edition, 13, 11.1.5).

ghost use Rattle.std.specs.Prelude.{◌≡◌, []};
ghost use Rattle.es5_reading.specs.Expressions.{identifier, accessor, accessor_function, accessor_parameters, body, function_expression, rest_of_function, statements};
ghost use Rattle.es5_cursor.specs.Nests.{ReadsStatements};
ghost use Rattle.es5_cursor.specs.Reads.{Reads, ReadsInto};
ghost use Rattle.es5_cursor.specs.Readers.{inner, all_parameters};

use es5_ast::{Function5, Identifier5, Property5, Stat5};
use es5_cursor::names::{identifier, key, more_parameters, no_parameter, one_parameter};
use es5_cursor::{Cursor, Halt, Stop, TURNS, enter};
use es5_nodes::lists::push;
use es5_nodes::parts;
use es5_tokens::Punctuator;
use sqlite_items::{Boxed, Items};

/// The statements of a block or a function after the opening brace, and the closing brace.
pub fn statements<S: Fn(&mut Cursor, u16, bool, bool) -> Result<Boxed<Stat5>, Halt>>(
    cursor: &mut Cursor,
    room: u16,
    inside: bool,
    top: bool,
    statement: &S,
) -> Result<Items<Stat5>, Halt>
    requires statements { ReadsStatements room (S.pre statement.now) (S.post statement.now) }
    ensures { Reads (statements (inner room) inside top (inner room).fuel cursor.old) result cursor.new }
{
    let mut list = Items::new(cursor.alloc());
    match listed_statements::<S>(cursor, room, inside, top, &mut list, statement) {
        Ok(()) => Ok(list),
        Err(halt) => Err(let_go(list, halt)),
    }
}

#[tactic(auto, using(es5_cursor::proofs::Rules::lists, crate::proofs::ListTurns::statements_turn, crate::proofs::ListTurns::statements_more, crate::proofs::ListTurns::statements_end), unfolding(es5_reading::specs::Expressions::statements))]
fn listed_statements<S: Fn(&mut Cursor, u16, bool, bool) -> Result<Boxed<Stat5>, Halt>>(
    cursor: &mut Cursor,
    room: u16,
    inside: bool,
    top: bool,
    list: &mut Items<Stat5>,
    statement: &S,
) -> Result<(), Halt>
    requires statements { ReadsStatements room (S.pre statement.now) (S.post statement.now) }
    requires empty { list.old ≡ [] }
    ensures { ReadsInto (statements (inner room) inside top (inner room).fuel cursor.old) result list.new cursor.new }
{
    for turn in 0..TURNS {
        if cursor.take_mark(Punctuator::RightBrace) {
            return Ok(());
        }
        push(list, statement(cursor, room, inside, top)?)?;
    }
    Err(Halt::Stopped(Stop::Endless))
}

/// The halt, which is all that is left: statements that are let go in a frame of their own take no room in those round them.
#[inline(never)]
fn let_go(_statements: Items<Stat5>, halt: Halt) -> Halt
    ensures { result ≡ halt }
{
    halt
}

#[tactic(auto, using(es5_cursor::proofs::Rules::groups), unfolding(es5_reading::specs::Expressions::body))]
fn body<S: Fn(&mut Cursor, u16, bool, bool) -> Result<Boxed<Stat5>, Halt>>(
    cursor: &mut Cursor,
    room: u16,
    statement: &S,
) -> Result<Items<Stat5>, Halt>
    requires statements { ReadsStatements room (S.pre statement.now) (S.post statement.now) }
    ensures { Reads (body (inner room) cursor.old) result cursor.new }
{
    enter(cursor, room, Punctuator::LeftBrace)?;
    statements::<S>(cursor, room, true, true, statement)
}

/// The parameters after the opening parenthesis, and the closing one.
#[tactic(auto, using(es5_cursor::proofs::Rules::groups), unfolding(es5_cursor::specs::Readers::all_parameters))]
#[inline(never)]
fn parameters(cursor: &mut Cursor) -> Result<Items<Identifier5>, Halt>
    ensures { Reads (all_parameters cursor.old) result cursor.new }
{
    if cursor.take_mark(Punctuator::RightParenthesis) {
        return Ok(Items::new(cursor.alloc()));
    }
    more_parameters(cursor)
}

/// The name of a function, which takes little room in the frames round it.
#[inline(never)]
pub fn named(cursor: &mut Cursor) -> Result<Boxed<Identifier5>, Halt>
    ensures { Reads (identifier cursor.old) result cursor.new }
{
    let name = identifier(cursor)?;
    Ok(Boxed::new(cursor.alloc(), name)?)
}

/// What follows the name of a function that begins at the offset.
#[tactic(auto, using(es5_cursor::proofs::Rules::groups), unfolding(es5_reading::specs::Expressions::rest_of_function))]
pub fn rest_of_function<S: Fn(&mut Cursor, u16, bool, bool) -> Result<Boxed<Stat5>, Halt>>(
    cursor: &mut Cursor,
    room: u16,
    begin: u32,
    name: Option<Boxed<Identifier5>>,
    statement: &S,
) -> Result<Boxed<Function5>, Halt>
    requires statements { ReadsStatements room (S.pre statement.now) (S.post statement.now) }
    ensures { Reads (rest_of_function (inner room) begin name cursor.old) result cursor.new }
{
    enter(cursor, room, Punctuator::LeftParenthesis)?;
    let parameters = parameters(cursor)?;
    let body = body::<S>(cursor, room, statement)?;
    let span = cursor.span_from(begin);
    Ok(parts::function(cursor.alloc(), span, name, parameters, body)?)
}

/// What follows `function`, which begins at the offset, in an expression.
#[tactic(auto, using(es5_cursor::proofs::Rules::groups), unfolding(es5_reading::specs::Expressions::function_expression))]
#[inline(never)]
pub fn function_expression<S: Fn(&mut Cursor, u16, bool, bool) -> Result<Boxed<Stat5>, Halt>>(
    cursor: &mut Cursor,
    room: u16,
    begin: u32,
    statement: &S,
) -> Result<Boxed<Function5>, Halt>
    requires statements { ReadsStatements room (S.pre statement.now) (S.post statement.now) }
    ensures { Reads (function_expression (inner room) begin cursor.old) result cursor.new }
{
    if cursor.next_is_mark(Punctuator::LeftParenthesis) {
        return rest_of_function::<S>(cursor, room, begin, None, statement);
    }
    let name = named(cursor)?;
    rest_of_function::<S>(cursor, room, begin, Some(name), statement)
}

#[tactic(auto, using(es5_cursor::proofs::Rules::groups), unfolding(es5_reading::specs::Expressions::accessor_parameters))]
fn accessor_parameters(cursor: &mut Cursor, setter: bool) -> Result<Items<Identifier5>, Halt>
    ensures { Reads (accessor_parameters setter cursor.old) result cursor.new }
{
    if setter {
        one_parameter(cursor)
    } else {
        no_parameter(cursor)
    }
}

/// What follows the name of an accessor.
#[tactic(auto, using(es5_cursor::proofs::Rules::groups), unfolding(es5_reading::specs::Expressions::accessor_function))]
fn accessor_function<S: Fn(&mut Cursor, u16, bool, bool) -> Result<Boxed<Stat5>, Halt>>(
    cursor: &mut Cursor,
    room: u16,
    setter: bool,
    statement: &S,
) -> Result<Boxed<Function5>, Halt>
    requires statements { ReadsStatements room (S.pre statement.now) (S.post statement.now) }
    ensures { Reads (accessor_function (inner room) setter cursor.old) result cursor.new }
{
    let begin = cursor.begin();
    enter(cursor, room, Punctuator::LeftParenthesis)?;
    let parameters = accessor_parameters(cursor, setter)?;
    let body = body::<S>(cursor, room, statement)?;
    let span = cursor.span_from(begin);
    Ok(parts::function(cursor.alloc(), span, None, parameters, body)?)
}

/// What follows `get` or `set`, which begins at the offset.
#[tactic(auto, using(es5_cursor::proofs::Rules::groups), unfolding(es5_reading::specs::Expressions::accessor))]
#[inline(never)]
pub fn accessor<S: Fn(&mut Cursor, u16, bool, bool) -> Result<Boxed<Stat5>, Halt>>(
    cursor: &mut Cursor,
    room: u16,
    begin: u32,
    setter: bool,
    statement: &S,
) -> Result<Boxed<Property5>, Halt>
    requires statements { ReadsStatements room (S.pre statement.now) (S.post statement.now) }
    ensures { Reads (accessor (inner room) begin setter cursor.old) result cursor.new }
{
    let key = key(cursor)?;
    let function = accessor_function::<S>(cursor, room, setter, statement)?;
    let span = cursor.span_from(begin);
    Ok(parts::accessor(cursor.alloc(), setter, span, key, function)?)
}
