//! The properties of object literals (ECMA-262, 5.1 edition, 11.1.5).

ghost use Rattle.es5_reading.specs.Expressions.{after_accessor_word, assignment, one_property, plain_property, value_of_key};
ghost use Rattle.es5_cursor.specs.Nests.{ReadsExpressions, ReadsStatements};
ghost use Rattle.es5_cursor.specs.Reads.{Reads};
ghost use Rattle.es5_cursor.specs.Readers.{inner};
ghost use Rattle.es5_reading.specs.Expressions.{accessor_name};
ghost use Rattle.std.specs.Prelude.{false, ◌+◌, ◌<◌, ◌≡◌, IfOk};

use crate::function::accessor;
use es_text::Span;
use es5_ast::{Key5, PlacedKey5, Property5, Stat5};
use es5_cursor::names::key;
use es5_cursor::{Cursor, Halt, Nested};
use es5_nodes::{Read, parts};
use es5_tokens::Punctuator;
use shared_text::Name;
use sqlite_items::Boxed;
use std::alloc::{AllocError, Global};

/// The value of a property, which is read as if the property were no construct.
#[tactic(auto, using(crate::proofs::Inside::assignment_next))]
fn value_of_property<E: Fn(&mut Cursor, u16, bool, Nested) -> Result<Read, Halt>>(
    cursor: &mut Cursor,
    room: u16,
    expression: &E,
) -> Result<Read, Halt>
    requires below { room < 65535 }
    requires expressions { ReadsExpressions (room + 1) (E.pre expression.now) (E.post expression.now) }
    ensures { Reads (assignment (inner room) false cursor.old) result cursor.new }
{
    expression(cursor, room + 1, false, Nested::Assignment)
}

/// The value after the colon of a property that begins at the offset.
#[tactic(auto, using(es5_cursor::proofs::Rules::groups), unfolding(es5_reading::specs::Expressions::value_of_key))]
fn value_of_key<E: Fn(&mut Cursor, u16, bool, Nested) -> Result<Read, Halt>>(
    cursor: &mut Cursor,
    room: u16,
    begin: u32,
    key: PlacedKey5,
    expression: &E,
) -> Result<Boxed<Property5>, Halt>
    requires below { room < 65535 }
    requires expressions { ReadsExpressions (room + 1) (E.pre expression.now) (E.post expression.now) }
    ensures { Reads (value_of_key (inner room) begin key cursor.old) result cursor.new }
{
    let value = value_of_property::<E>(cursor, room, expression)?;
    let span = cursor.span_from(begin);
    Ok(parts::property(cursor.alloc(), span, key, value.into_value())?)
}

#[tactic(auto, using(es5_cursor::proofs::Rules::groups), unfolding(es5_reading::specs::Expressions::plain_property))]
fn plain_property<E: Fn(&mut Cursor, u16, bool, Nested) -> Result<Read, Halt>>(
    cursor: &mut Cursor,
    room: u16,
    begin: u32,
    expression: &E,
) -> Result<Boxed<Property5>, Halt>
    requires below { room < 65535 }
    requires expressions { ReadsExpressions (room + 1) (E.pre expression.now) (E.post expression.now) }
    ensures { Reads (plain_property (inner room) begin cursor.old) result cursor.new }
{
    let key = key(cursor)?;
    cursor.expect_mark(Punctuator::Colon)?;
    value_of_key::<E>(cursor, room, begin, key, expression)
}

/// The property that begins with `get` or `set` at the offset: a name of its own before a colon, else an accessor's word.
#[tactic(auto, using(es5_cursor::proofs::Rules::groups), unfolding(es5_reading::specs::Expressions::after_accessor_word))]
#[inline(never)]
fn after_accessor_word<
    E: Fn(&mut Cursor, u16, bool, Nested) -> Result<Read, Halt>,
    S: Fn(&mut Cursor, u16, bool, bool) -> Result<Boxed<Stat5>, Halt>,
>(
    cursor: &mut Cursor,
    room: u16,
    begin: u32,
    setter: bool,
    expression: &E,
    statement: &S,
) -> Result<Boxed<Property5>, Halt>
    requires below { room < 65535 }
    requires expressions { ReadsExpressions (room + 1) (E.pre expression.now) (E.post expression.now) }
    requires statements { ReadsStatements room (S.pre statement.now) (S.post statement.now) }
    ensures { Reads (after_accessor_word (inner room) begin setter cursor.old) result cursor.new }
{
    let span = cursor.span_from(begin);
    if cursor.take_mark(Punctuator::Colon) {
        let key = accessor_key(cursor.alloc(), span, setter)?;
        return value_of_key::<E>(cursor, room, begin, key, expression);
    }
    accessor::<S>(cursor, room, begin, setter, statement)
}

fn accessor_key(alloc: Global, span: Span, setter: bool) -> Result<PlacedKey5, AllocError>
    ensures { IfOk result (λ key. key ≡ record { span = span; key = Key5.WordKey (accessor_name setter) }) }
{
    let name = if setter { b"set" } else { b"get" };
    Ok(PlacedKey5 {
        span,
        key: Key5::WordKey(Name::of_bytes(alloc, name)?),
    })
}

/// A property.
#[tactic(auto, using(es5_cursor::proofs::Rules::groups), unfolding(es5_reading::specs::Expressions::one_property))]
pub fn one_property<
    E: Fn(&mut Cursor, u16, bool, Nested) -> Result<Read, Halt>,
    S: Fn(&mut Cursor, u16, bool, bool) -> Result<Boxed<Stat5>, Halt>,
>(cursor: &mut Cursor, room: u16, expression: &E, statement: &S) -> Result<Boxed<Property5>, Halt>
    requires below { room < 65535 }
    requires expressions { ReadsExpressions (room + 1) (E.pre expression.now) (E.post expression.now) }
    requires statements { ReadsStatements room (S.pre statement.now) (S.post statement.now) }
    ensures { Reads (one_property (inner room) cursor.old) result cursor.new }
{
    let begin = cursor.begin();
    if let Some(setter) = cursor.take_accessor() {
        return after_accessor_word::<E, S>(cursor, room, begin, setter, expression, statement);
    }
    plain_property::<E>(cursor, room, begin, expression)
}
