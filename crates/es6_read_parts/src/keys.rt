//! The names of properties (ECMA-262, 6th edition, 12.2.6).

ghost use Rattle.es6_cursor.specs.Nests.{ReadsExpressions};
ghost use Rattle.es6_cursor.specs.Readers.{inner};
ghost use Rattle.es6_cursor.specs.Reads.{ReadsAs};
ghost use Rattle.es6_reading.specs.Parts.{computed_key, key};

use es6_cursor::{Cursor, Flags, Halt, Nested, open};
use es6_lexer::Punctuator;
use es6_makers::MakesKeys;

/// What follows the bracket of a computed name, which begins at the offset.
#[tactic(auto, using(es6_cursor::proofs::Rules::groups), unfolding(es6_reading::specs::Parts::computed_key))]
#[inline(never)]
fn computed_key<G: MakesKeys, E: Fn(&mut Cursor, u16, Flags, Nested) -> Result<G::Reading, Halt>>(
    cursor: &mut Cursor,
    room: u16,
    flags: Flags,
    begin: u32,
    expression: &E,
) -> Result<G::Key, Halt>
    requires expressions { ReadsExpressions G.seen room (E.pre expression.now) (E.post expression.now) }
    ensures { ReadsAs G.seen_key (computed_key (inner room) flags begin cursor.old) result cursor.new }
{
    let value = expression(cursor, room, flags.with_in(), Nested::Assignment)?;
    cursor.expect_mark(Punctuator::RightBracket)?;
    Ok(G::computed_key(cursor.alloc(), cursor.span_from(begin), value)?)
}

/// The name of a property.
#[tactic(auto, using(es6_cursor::proofs::Rules::groups, crate::proofs::PlacedKeys::on_key, crate::proofs::PlacedKeys::off_key))]
pub fn key<G: MakesKeys, E: Fn(&mut Cursor, u16, Flags, Nested) -> Result<G::Reading, Halt>>(
    cursor: &mut Cursor,
    room: u16,
    flags: Flags,
    expression: &E,
) -> Result<G::Key, Halt>
    requires expressions { ReadsExpressions G.seen room (E.pre expression.now) (E.post expression.now) }
    ensures { ReadsAs G.seen_key (key (inner room) flags cursor.old) result cursor.new }
{
    let begin = cursor.begin();
    if let Some(key) = cursor.take_key()? {
        return Ok(G::placed_key(key));
    }
    if open(cursor, room, Punctuator::LeftBracket)? {
        return computed_key::<G, E>(cursor, room, flags, begin, expression);
    }
    Err(Halt::Stopped(cursor.no_number()))
}
