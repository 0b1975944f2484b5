//! Classes (ECMA-262, 6th edition, 14.5).

ghost use Rattle.es6_cursor.specs.Nests.{ReadsExpressions, ReadsStatements};
ghost use Rattle.es6_cursor.specs.Readers.{inner};
ghost use Rattle.es6_cursor.specs.Reads.{ReadsAs};
ghost use Rattle.es6_read_parts.specs.Classes.{class_body};
ghost use Rattle.es6_reading.specs.Parts.{class_after_word, heritage, named_class, rest_of_class};

use crate::class_members::members;
use es6_ast::Identifier;
use es6_cursor::{Cursor, Flags, Halt, Nested, Stand, enter};
use es6_lexer::Punctuator;
use es6_makers::{MakesClasses, MakesMembers, MakesOptionals};

/// ClassHeritage, or nothing.
#[tactic(auto, using(es6_cursor::proofs::Rules::groups), unfolding(es6_reading::specs::Parts::heritage))]
#[inline(never)]
fn heritage<G: MakesOptionals, E: Fn(&mut Cursor, u16, Flags, Nested) -> Result<G::Reading, Halt>>(
    cursor: &mut Cursor,
    room: u16,
    flags: Flags,
    expression: &E,
) -> Result<G::Optional, Halt>
    requires expressions { ReadsExpressions G.seen room (E.pre expression.now) (E.post expression.now) }
    ensures { ReadsAs G.seen_optional (heritage (inner room) flags cursor.old) result cursor.new }
{
    if !cursor.take_word(b"extends") {
        return Ok(G::absent());
    }
    let parent = expression(cursor, room, flags, Nested::Heritage)?;
    Ok(G::present(parent))
}

/// ClassBody in its braces.
#[tactic(auto, using(es6_cursor::proofs::Rules::groups), unfolding(crate::specs::Classes::class_body))]
fn class_body<
    G: MakesMembers,
    E: Fn(&mut Cursor, u16, Flags, Nested) -> Result<G::Reading, Halt>,
    S: Fn(&mut Cursor, u16, Flags, Stand) -> Result<G::Statement, Halt>,
>(
    cursor: &mut Cursor,
    room: u16,
    flags: Flags,
    expression: &E,
    statement: &S,
) -> Result<G::Members, Halt>
    requires expressions { ReadsExpressions G.seen room (E.pre expression.now) (E.post expression.now) }
    requires statements { ReadsStatements G.seen_statement room (S.pre statement.now) (S.post statement.now) }
    ensures { ReadsAs G.seen_members (class_body (inner room) flags cursor.old) result cursor.new }
{
    enter(cursor, room, Punctuator::LeftBrace)?;
    members::<G, E, S>(cursor, room, flags, expression, statement)
}

/// What follows the name of a class, which begins at the offset.
#[tactic(auto, using(es6_cursor::proofs::Rules::groups), unfolding(es6_reading::specs::Parts::rest_of_class, crate::specs::Classes::class_body))]
fn rest_of_class<
    G: MakesClasses,
    E: Fn(&mut Cursor, u16, Flags, Nested) -> Result<G::Reading, Halt>,
    S: Fn(&mut Cursor, u16, Flags, Stand) -> Result<G::Statement, Halt>,
>(
    cursor: &mut Cursor,
    room: u16,
    flags: Flags,
    begin: u32,
    name: Option<Identifier>,
    expression: &E,
    statement: &S,
) -> Result<G::Class, Halt>
    requires expressions { ReadsExpressions G.seen room (E.pre expression.now) (E.post expression.now) }
    requires statements { ReadsStatements G.seen_statement room (S.pre statement.now) (S.post statement.now) }
    ensures { ReadsAs G.seen_class (rest_of_class (inner room) flags begin name cursor.old) result cursor.new }
{
    let heritage = heritage::<G, E>(cursor, room, flags, expression)?;
    let members = class_body::<G, E, S>(cursor, room, flags, expression, statement)?;
    let span = cursor.span_from(begin);
    Ok(G::class(cursor.alloc(), span, name, heritage, members)?)
}

#[tactic(auto, using(es6_cursor::proofs::Rules::groups), unfolding(es6_reading::specs::Parts::named_class))]
fn named_class<
    G: MakesClasses,
    E: Fn(&mut Cursor, u16, Flags, Nested) -> Result<G::Reading, Halt>,
    S: Fn(&mut Cursor, u16, Flags, Stand) -> Result<G::Statement, Halt>,
>(
    cursor: &mut Cursor,
    room: u16,
    flags: Flags,
    begin: u32,
    expression: &E,
    statement: &S,
) -> Result<G::Class, Halt>
    requires expressions { ReadsExpressions G.seen room (E.pre expression.now) (E.post expression.now) }
    requires statements { ReadsStatements G.seen_statement room (S.pre statement.now) (S.post statement.now) }
    ensures { ReadsAs G.seen_class (named_class (inner room) flags begin cursor.old) result cursor.new }
{
    let name = cursor.identifier()?;
    rest_of_class::<G, E, S>(
        cursor,
        room,
        flags,
        begin,
        Some(name),
        expression,
        statement,
    )
}

/// What follows `class`, which begins at the offset. The mark says that the name may be absent.
#[tactic(auto, using(es6_cursor::proofs::Rules::groups), unfolding(es6_reading::specs::Parts::class_after_word))]
#[inline(never)]
pub fn class_after_word<
    G: MakesClasses,
    E: Fn(&mut Cursor, u16, Flags, Nested) -> Result<G::Reading, Halt>,
    S: Fn(&mut Cursor, u16, Flags, Stand) -> Result<G::Statement, Halt>,
>(
    cursor: &mut Cursor,
    room: u16,
    flags: Flags,
    lacks: bool,
    begin: u32,
    expression: &E,
    statement: &S,
) -> Result<G::Class, Halt>
    requires expressions { ReadsExpressions G.seen room (E.pre expression.now) (E.post expression.now) }
    requires statements { ReadsStatements G.seen_statement room (S.pre statement.now) (S.post statement.now) }
    ensures { ReadsAs G.seen_class (class_after_word (inner room) flags lacks begin cursor.old) result cursor.new }
{
    if !lacks {
        return named_class::<G, E, S>(cursor, room, flags, begin, expression, statement);
    }
    if cursor.next_begins_class_tail() {
        return rest_of_class::<G, E, S>(cursor, room, flags, begin, None, expression, statement);
    }
    named_class::<G, E, S>(cursor, room, flags, begin, expression, statement)
}
