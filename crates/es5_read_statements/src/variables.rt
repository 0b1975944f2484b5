//! Variables (ECMA-262, 5.1 edition, 12.2).

ghost use Rattle.std.specs.Prelude.{true, false};
ghost use Rattle.es5_cursor.specs.Nests.{ReadsExpressions};
ghost use Rattle.es5_cursor.specs.Reads.{Reads};
ghost use Rattle.es5_reading.specs.Statements.{declared_list, initialized, one_declared, var_statement};
ghost use Rattle.es5_cursor.specs.Readers.{inner};

use crate::inner::inner_declared;
use es5_ast::{Declared5, Identifier5, Stat5};
use es5_cursor::names::identifier;
use es5_cursor::{Cursor, Halt, Nested, Stop, TURNS, semicolon};
use es5_nodes::lists::push;
use es5_nodes::{Read, parts, statements};
use es5_tokens::Punctuator;
use sqlite_items::{Boxed, Items};

/// What a variable is initialized with, behind its `=`.
#[tactic(auto, unfolding(es5_reading::specs::Statements::initialized))]
fn initialized<E: Fn(&mut Cursor, u16, bool, Nested) -> Result<Read, Halt>>(
    cursor: &mut Cursor,
    room: u16,
    no_in: bool,
    begin: u32,
    name: Identifier5,
    expression: &E,
) -> Result<Boxed<Declared5>, Halt>
    requires expressions { ReadsExpressions room (E.pre expression.now) (E.post expression.now) }
    ensures { Reads (initialized (inner room) no_in begin name cursor.old) result cursor.new }
{
    let init = expression(cursor, room, no_in, Nested::Assignment)?.into_value();
    let span = cursor.span_from(begin);
    Ok(parts::declared(cursor.alloc(), span, name, Some(init))?)
}

/// A variable, and what it is initialized with.
#[tactic(auto, using(es5_cursor::proofs::Rules::groups), unfolding(es5_reading::specs::Statements::one_declared))]
pub fn one_declared<E: Fn(&mut Cursor, u16, bool, Nested) -> Result<Read, Halt>>(
    cursor: &mut Cursor,
    room: u16,
    no_in: bool,
    expression: &E,
) -> Result<Boxed<Declared5>, Halt>
    requires expressions { ReadsExpressions room (E.pre expression.now) (E.post expression.now) }
    ensures { Reads (one_declared (inner room) no_in cursor.old) result cursor.new }
{
    let begin = cursor.begin();
    let name = identifier(cursor)?;
    if cursor.take_mark(Punctuator::Assign) {
        return initialized::<E>(cursor, room, no_in, begin, name, expression);
    }
    let span = cursor.span_from(begin);
    Ok(parts::declared(cursor.alloc(), span, name, None)?)
}

/// The variables of a statement.
#[tactic(auto, using(es5_cursor::proofs::Rules::lists, crate::proofs::StatementLists::declared_turn, crate::proofs::StatementLists::declared_more), unfolding(es5_reading::specs::Statements::declared_list))]
fn declarations<E: Fn(&mut Cursor, u16, bool, Nested) -> Result<Read, Halt>>(
    cursor: &mut Cursor,
    room: u16,
    expression: &E,
) -> Result<Items<Declared5>, Halt>
    requires expressions { ReadsExpressions room (E.pre expression.now) (E.post expression.now) }
    ensures { Reads (declared_list (one_declared (inner room) false) (inner room).fuel cursor.old) result cursor.new }
{
    let mut list = Items::new(cursor.alloc());
    for turn in 0..TURNS {
        push(
            &mut list,
            one_declared::<E>(cursor, room, false, expression)?,
        )?;
        if !cursor.take_mark(Punctuator::Comma) {
            return Ok(list);
        }
    }
    Err(Halt::Stopped(Stop::Endless))
}

/// The variables of a for header behind a comma (12.6.3).
#[tactic(auto, using(es5_cursor::proofs::Rules::lists, crate::proofs::StatementLists::declared_turn, crate::proofs::StatementLists::declared_more), unfolding(es5_reading::specs::Statements::declared_list))]
pub fn more_declarations<E: Fn(&mut Cursor, u16, bool, Nested) -> Result<Read, Halt>>(
    cursor: &mut Cursor,
    room: u16,
    expression: &E,
) -> Result<Items<Declared5>, Halt>
    requires expressions { ReadsExpressions room (E.pre expression.now) (E.post expression.now) }
    ensures { Reads (declared_list ((inner room).declared true) (inner room).fuel cursor.old) result cursor.new }
{
    let mut list = Items::new(cursor.alloc());
    for turn in 0..TURNS {
        push(
            &mut list,
            inner_declared::<E>(cursor, room, true, expression)?,
        )?;
        if !cursor.take_mark(Punctuator::Comma) {
            return Ok(list);
        }
    }
    Err(Halt::Stopped(Stop::Endless))
}

/// What follows the word `var`.
#[tactic(auto, using(es5_cursor::proofs::Endings::semicolon_is), unfolding(es5_reading::specs::Statements::var_statement))]
#[inline(never)]
pub fn var_statement<E: Fn(&mut Cursor, u16, bool, Nested) -> Result<Read, Halt>>(
    cursor: &mut Cursor,
    room: u16,
    begin: u32,
    expression: &E,
) -> Result<Boxed<Stat5>, Halt>
    requires expressions { ReadsExpressions room (E.pre expression.now) (E.post expression.now) }
    ensures { Reads (var_statement (inner room) begin cursor.old) result cursor.new }
{
    let declared = declarations::<E>(cursor, room, expression)?;
    semicolon(cursor)?;
    let span = cursor.span_from(begin);
    Ok(statements::variables(cursor.alloc(), span, declared)?)
}
