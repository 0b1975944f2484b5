//! The items of object literals, array literals and arguments (ECMA-262, 5.1 edition, 11.1.4, 11.1.5, 11.2).

ghost use Rattle.es5_reading.specs.Expressions.{arguments, elements, more_arguments, properties};
ghost use Rattle.es5_cursor.specs.Nests.{ReadsExpressions, ReadsStatements};
ghost use Rattle.es5_cursor.specs.Reads.{Reads};
ghost use Rattle.es5_cursor.specs.Readers.{inner};

use crate::inner::inner_property;
use es5_ast::{Element5, Expr5, Property5, Stat5};
use es5_cursor::{Cursor, Halt, Nested, Stop, TURNS};
use es5_nodes::Read;
use es5_nodes::lists::{push, push_element, push_hole};
use es5_tokens::Punctuator;
use sqlite_items::{Boxed, Items};

/// The properties after the opening brace, and the closing brace.
#[tactic(auto, using(es5_cursor::proofs::Rules::lists, crate::proofs::ListTurns::properties_turn, crate::proofs::ListTurns::properties_more, crate::proofs::ListTurns::properties_end), unfolding(es5_reading::specs::Expressions::properties))]
#[inline(never)]
pub fn properties<
    E: Fn(&mut Cursor, u16, bool, Nested) -> Result<Read, Halt>,
    S: Fn(&mut Cursor, u16, bool, bool) -> Result<Boxed<Stat5>, Halt>,
>(cursor: &mut Cursor, room: u16, expression: &E, statement: &S) -> Result<Items<Property5>, Halt>
    requires expressions { ReadsExpressions room (E.pre expression.now) (E.post expression.now) }
    requires statements { ReadsStatements room (S.pre statement.now) (S.post statement.now) }
    ensures { Reads (properties (inner room) (inner room).fuel cursor.old) result cursor.new }
{
    let mut list = Items::new(cursor.alloc());
    for turn in 0..TURNS {
        if cursor.take_mark(Punctuator::RightBrace) {
            return Ok(list);
        }
        push(
            &mut list,
            inner_property::<E, S>(cursor, room, expression, statement)?,
        )?;
        if !cursor.take_mark(Punctuator::Comma) {
            cursor.expect_mark(Punctuator::RightBrace)?;
            return Ok(list);
        }
    }
    Err(Halt::Stopped(Stop::Endless))
}

/// The elements after the opening bracket, and the closing bracket.
#[tactic(auto, using(es5_cursor::proofs::Rules::lists, crate::proofs::ListTurns::elements_turn, crate::proofs::ListTurns::elements_more, crate::proofs::ListTurns::elements_hole, crate::proofs::ListTurns::elements_end), unfolding(es5_reading::specs::Expressions::elements))]
#[inline(never)]
pub fn elements<E: Fn(&mut Cursor, u16, bool, Nested) -> Result<Read, Halt>>(
    cursor: &mut Cursor,
    room: u16,
    expression: &E,
) -> Result<Items<Element5>, Halt>
    requires expressions { ReadsExpressions room (E.pre expression.now) (E.post expression.now) }
    ensures { Reads (elements (inner room) (inner room).fuel cursor.old) result cursor.new }
{
    let mut list = Items::new(cursor.alloc());
    for turn in 0..TURNS {
        if cursor.take_mark(Punctuator::RightBracket) {
            return Ok(list);
        }
        if cursor.take_mark(Punctuator::Comma) {
            push_hole(&mut list)?;
            continue;
        }
        let element = expression(cursor, room, false, Nested::Assignment)?;
        push_element(&mut list, element.into_value())?;
        if !cursor.take_mark(Punctuator::Comma) {
            cursor.expect_mark(Punctuator::RightBracket)?;
            return Ok(list);
        }
    }
    Err(Halt::Stopped(Stop::Endless))
}

#[tactic(auto, using(es5_cursor::proofs::Rules::lists, crate::proofs::ListTurns::arguments_turn, crate::proofs::ListTurns::arguments_more), unfolding(es5_reading::specs::Expressions::more_arguments))]
fn more_arguments<E: Fn(&mut Cursor, u16, bool, Nested) -> Result<Read, Halt>>(
    cursor: &mut Cursor,
    room: u16,
    expression: &E,
) -> Result<Items<Expr5>, Halt>
    requires expressions { ReadsExpressions room (E.pre expression.now) (E.post expression.now) }
    ensures { Reads (more_arguments (inner room) (inner room).fuel cursor.old) result cursor.new }
{
    let mut list = Items::new(cursor.alloc());
    for turn in 0..TURNS {
        let argument = expression(cursor, room, false, Nested::Assignment)?;
        push(&mut list, argument.into_value())?;
        if !cursor.take_mark(Punctuator::Comma) {
            cursor.expect_mark(Punctuator::RightParenthesis)?;
            return Ok(list);
        }
    }
    Err(Halt::Stopped(Stop::Endless))
}

/// The arguments after the opening parenthesis, and the closing one.
#[tactic(auto, using(es5_cursor::proofs::Rules::groups), unfolding(es5_reading::specs::Expressions::arguments))]
pub fn arguments<E: Fn(&mut Cursor, u16, bool, Nested) -> Result<Read, Halt>>(
    cursor: &mut Cursor,
    room: u16,
    expression: &E,
) -> Result<Items<Expr5>, Halt>
    requires expressions { ReadsExpressions room (E.pre expression.now) (E.post expression.now) }
    ensures { Reads (arguments (inner room) cursor.old) result cursor.new }
{
    if cursor.take_mark(Punctuator::RightParenthesis) {
        return Ok(Items::new(cursor.alloc()));
    }
    more_arguments::<E>(cursor, room, expression)
}
