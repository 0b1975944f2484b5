//! Expressions with operators (ECMA-262, 5.1 edition, 11.3 to 11.14).

ghost use Rattle.std.specs.Prelude.{◌≡◌, []};
ghost use Rattle.es5_reading.specs.Expressions.{assigned, assignment, branches, conditional, more_parts, parts, postfix, prefixed, sequence, unary, updated};
ghost use Rattle.es5_cursor.specs.Nests.{ReadsExpressions, ReadsStatements};
ghost use Rattle.es5_cursor.specs.Reads.{Reads, ReadsInto};
ghost use Rattle.es5_cursor.specs.Readers.{inner};

use crate::binary::binary;
use crate::chains::chain;
use es5_ast::{AssignOperator5, Expr5, Stat5, UnaryOperator5, UpdateOperator5};
use es5_cursor::{Cursor, Halt, Nested, Stop, TURNS};
use es5_nodes::lists::push;
use es5_nodes::{Read, expressions};
use es5_tokens::Punctuator;
use sqlite_items::{Boxed, Items};

/// 11.3
#[tactic(auto, using(es5_cursor::proofs::Rules::groups), unfolding(es5_reading::specs::Expressions::postfix))]
fn postfix<
    E: Fn(&mut Cursor, u16, bool, Nested) -> Result<Read, Halt>,
    S: Fn(&mut Cursor, u16, bool, bool) -> Result<Boxed<Stat5>, Halt>,
>(cursor: &mut Cursor, room: u16, expression: &E, statement: &S) -> Result<Read, Halt>
    requires expressions { ReadsExpressions room (E.pre expression.now) (E.post expression.now) }
    requires statements { ReadsStatements room (S.pre statement.now) (S.post statement.now) }
    ensures { Reads (postfix (inner room) cursor.old) result cursor.new }
{
    let begin = cursor.begin();
    let operand = chain::<E, S>(cursor, room, true, expression, statement)?;
    let Some(operator) = cursor.take_after() else {
        return Ok(operand);
    };
    let span = cursor.span_from(begin);
    Ok(expressions::update(cursor.alloc(), span, operator, operand.into_value())?)
}

#[tactic(auto, using(es5_cursor::proofs::Rules::groups), unfolding(es5_reading::specs::Expressions::prefixed))]
#[inline(never)]
fn prefixed<E: Fn(&mut Cursor, u16, bool, Nested) -> Result<Read, Halt>>(
    cursor: &mut Cursor,
    room: u16,
    begin: u32,
    operator: UnaryOperator5,
    expression: &E,
) -> Result<Read, Halt>
    requires expressions { ReadsExpressions room (E.pre expression.now) (E.post expression.now) }
    ensures { Reads (prefixed (inner room) begin operator cursor.old) result cursor.new }
{
    let operand = expression(cursor, room, false, Nested::Unary)?;
    let span = cursor.span_from(begin);
    Ok(expressions::unary(cursor.alloc(), span, operator, operand.into_value())?)
}

#[tactic(auto, using(es5_cursor::proofs::Rules::groups), unfolding(es5_reading::specs::Expressions::updated))]
#[inline(never)]
fn updated<E: Fn(&mut Cursor, u16, bool, Nested) -> Result<Read, Halt>>(
    cursor: &mut Cursor,
    room: u16,
    begin: u32,
    operator: UpdateOperator5,
    expression: &E,
) -> Result<Read, Halt>
    requires expressions { ReadsExpressions room (E.pre expression.now) (E.post expression.now) }
    ensures { Reads (updated (inner room) begin operator cursor.old) result cursor.new }
{
    let target = expression(cursor, room, false, Nested::Unary)?;
    let span = cursor.span_from(begin);
    Ok(expressions::update(cursor.alloc(), span, operator, target.into_value())?)
}

/// 11.4
#[tactic(auto, using(es5_cursor::proofs::Rules::groups), unfolding(es5_reading::specs::Expressions::unary))]
#[inline(always)]
pub fn unary<
    E: Fn(&mut Cursor, u16, bool, Nested) -> Result<Read, Halt>,
    S: Fn(&mut Cursor, u16, bool, bool) -> Result<Boxed<Stat5>, Halt>,
>(cursor: &mut Cursor, room: u16, expression: &E, statement: &S) -> Result<Read, Halt>
    requires expressions { ReadsExpressions room (E.pre expression.now) (E.post expression.now) }
    requires statements { ReadsStatements room (S.pre statement.now) (S.post statement.now) }
    ensures { Reads (unary (inner room) cursor.old) result cursor.new }
{
    let begin = cursor.begin();
    if let Some(operator) = cursor.take_unary() {
        return prefixed::<E>(cursor, room, begin, operator, expression);
    }
    if let Some(operator) = cursor.take_before() {
        return updated::<E>(cursor, room, begin, operator, expression);
    }
    postfix::<E, S>(cursor, room, expression, statement)
}

/// What follows the `?` of a conditional expression, which begins at the offset.
#[tactic(auto, using(es5_cursor::proofs::Rules::groups), unfolding(es5_reading::specs::Expressions::branches))]
#[inline(never)]
fn branches<E: Fn(&mut Cursor, u16, bool, Nested) -> Result<Read, Halt>>(
    cursor: &mut Cursor,
    room: u16,
    no_in: bool,
    begin: u32,
    test: Boxed<Expr5>,
    expression: &E,
) -> Result<Read, Halt>
    requires expressions { ReadsExpressions room (E.pre expression.now) (E.post expression.now) }
    ensures { Reads (branches (inner room) no_in begin test cursor.old) result cursor.new }
{
    let yes = expression(cursor, room, false, Nested::Assignment)?;
    cursor.expect_mark(Punctuator::Colon)?;
    let no = expression(cursor, room, no_in, Nested::Assignment)?;
    let span = cursor.span_from(begin);
    let alloc = cursor.alloc();
    Ok(expressions::conditional(alloc, span, test, yes.into_value(), no.into_value())?)
}

/// 11.12
#[tactic(auto, using(es5_cursor::proofs::Rules::groups), unfolding(es5_reading::specs::Expressions::conditional))]
fn conditional<
    E: Fn(&mut Cursor, u16, bool, Nested) -> Result<Read, Halt>,
    S: Fn(&mut Cursor, u16, bool, bool) -> Result<Boxed<Stat5>, Halt>,
>(cursor: &mut Cursor, room: u16, no_in: bool, expression: &E, statement: &S) -> Result<Read, Halt>
    requires expressions { ReadsExpressions room (E.pre expression.now) (E.post expression.now) }
    requires statements { ReadsStatements room (S.pre statement.now) (S.post statement.now) }
    ensures { Reads (conditional (inner room) no_in cursor.old) result cursor.new }
{
    let begin = cursor.begin();
    let test = binary::<E, S>(cursor, room, no_in, expression, statement)?;
    if !cursor.take_mark(Punctuator::Question) {
        return Ok(test);
    }
    branches::<E>(cursor, room, no_in, begin, test.into_value(), expression)
}

/// What follows an assignment operator, whose target begins at the offset.
#[tactic(auto, using(es5_cursor::proofs::Rules::groups), unfolding(es5_reading::specs::Expressions::assigned))]
#[inline(never)]
fn assigned<E: Fn(&mut Cursor, u16, bool, Nested) -> Result<Read, Halt>>(
    cursor: &mut Cursor,
    room: u16,
    no_in: bool,
    begin: u32,
    target: Boxed<Expr5>,
    operator: AssignOperator5,
    expression: &E,
) -> Result<Read, Halt>
    requires expressions { ReadsExpressions room (E.pre expression.now) (E.post expression.now) }
    ensures { Reads (assigned (inner room) no_in begin target operator cursor.old) result cursor.new }
{
    let value = expression(cursor, room, no_in, Nested::Assignment)?;
    let span = cursor.span_from(begin);
    let alloc = cursor.alloc();
    Ok(expressions::assign(alloc, span, operator, target, value.into_value())?)
}

/// 11.13
#[tactic(auto, using(es5_cursor::proofs::Rules::groups), unfolding(es5_reading::specs::Expressions::assignment))]
pub fn assignment<
    E: Fn(&mut Cursor, u16, bool, Nested) -> Result<Read, Halt>,
    S: Fn(&mut Cursor, u16, bool, bool) -> Result<Boxed<Stat5>, Halt>,
>(cursor: &mut Cursor, room: u16, no_in: bool, expression: &E, statement: &S) -> Result<Read, Halt>
    requires expressions { ReadsExpressions room (E.pre expression.now) (E.post expression.now) }
    requires statements { ReadsStatements room (S.pre statement.now) (S.post statement.now) }
    ensures { Reads (assignment (inner room) no_in cursor.old) result cursor.new }
{
    let begin = cursor.begin();
    let target = conditional::<E, S>(cursor, room, no_in, expression, statement)?;
    if !target.is_left() {
        return Ok(target);
    }
    let Some(operator) = cursor.take_assign() else {
        return Ok(target);
    };
    assigned::<E>(
        cursor,
        room,
        no_in,
        begin,
        target.into_value(),
        operator,
        expression,
    )
}

#[tactic(auto, using(es5_cursor::proofs::Rules::lists, crate::proofs::ListTurns::parts_turn, crate::proofs::ListTurns::parts_more), unfolding(es5_reading::specs::Expressions::parts))]
fn parts<
    E: Fn(&mut Cursor, u16, bool, Nested) -> Result<Read, Halt>,
    S: Fn(&mut Cursor, u16, bool, bool) -> Result<Boxed<Stat5>, Halt>,
>(
    cursor: &mut Cursor,
    room: u16,
    no_in: bool,
    list: &mut Items<Expr5>,
    expression: &E,
    statement: &S,
) -> Result<(), Halt>
    requires expressions { ReadsExpressions room (E.pre expression.now) (E.post expression.now) }
    requires statements { ReadsStatements room (S.pre statement.now) (S.post statement.now) }
    requires empty { list.old ≡ [] }
    ensures { ReadsInto (parts (inner room) no_in (inner room).fuel cursor.old) result list.new cursor.new }
{
    for turn in 0..TURNS {
        let part = assignment::<E, S>(cursor, room, no_in, expression, statement)?;
        push(list, part.into_value())?;
        if !cursor.take_mark(Punctuator::Comma) {
            return Ok(());
        }
    }
    Err(Halt::Stopped(Stop::Endless))
}

/// The halt, which is all that is left: expressions that are let go in a frame of their own take no room in those round them.
#[inline(never)]
fn let_go(_first: Boxed<Expr5>, _rest: Items<Expr5>, halt: Halt) -> Halt
    ensures { result ≡ halt }
{
    halt
}

/// What follows the first comma of an expression that begins at the offset.
#[tactic(auto, using(es5_cursor::proofs::Rules::groups), unfolding(es5_reading::specs::Expressions::more_parts))]
#[inline(never)]
fn more_parts<
    E: Fn(&mut Cursor, u16, bool, Nested) -> Result<Read, Halt>,
    S: Fn(&mut Cursor, u16, bool, bool) -> Result<Boxed<Stat5>, Halt>,
>(
    cursor: &mut Cursor,
    room: u16,
    no_in: bool,
    begin: u32,
    first: Boxed<Expr5>,
    expression: &E,
    statement: &S,
) -> Result<Read, Halt>
    requires expressions { ReadsExpressions room (E.pre expression.now) (E.post expression.now) }
    requires statements { ReadsStatements room (S.pre statement.now) (S.post statement.now) }
    ensures { Reads (more_parts (inner room) no_in begin first cursor.old) result cursor.new }
{
    let mut rest = Items::new(cursor.alloc());
    match parts::<E, S>(cursor, room, no_in, &mut rest, expression, statement) {
        Ok(()) => {
            let span = cursor.span_from(begin);
            Ok(expressions::sequence(cursor.alloc(), span, first, rest)?)
        }
        Err(halt) => Err(let_go(first, rest, halt)),
    }
}

/// 11.14
#[tactic(auto, using(es5_cursor::proofs::Rules::groups), unfolding(es5_reading::specs::Expressions::sequence))]
#[inline(always)]
pub fn sequence<
    E: Fn(&mut Cursor, u16, bool, Nested) -> Result<Read, Halt>,
    S: Fn(&mut Cursor, u16, bool, bool) -> Result<Boxed<Stat5>, Halt>,
>(cursor: &mut Cursor, room: u16, no_in: bool, expression: &E, statement: &S) -> Result<Read, Halt>
    requires expressions { ReadsExpressions room (E.pre expression.now) (E.post expression.now) }
    requires statements { ReadsStatements room (S.pre statement.now) (S.post statement.now) }
    ensures { Reads (sequence (inner room) no_in cursor.old) result cursor.new }
{
    let begin = cursor.begin();
    let first = assignment::<E, S>(cursor, room, no_in, expression, statement)?;
    if !cursor.take_mark(Punctuator::Comma) {
        return Ok(first);
    }
    more_parts::<E, S>(
        cursor,
        room,
        no_in,
        begin,
        first.into_value(),
        expression,
        statement,
    )
}
