//! Classes (ECMA-262, 6th edition, 14.5).

ghost use Rattle.es6_cursor.specs.Nests.{ReadsExpressions, ReadsStatements};
ghost use Rattle.es6_cursor.specs.Readers.{inner};
ghost use Rattle.es6_cursor.specs.Reads.{ReadsAs};
ghost use Rattle.es6_reading.specs.Parts.{member_after_static, members, one_member};

use crate::inner::inner_member;
use crate::method::{method, method_after_key};
use es6_ast::MethodKind;
use es6_cursor::{Cursor, Flags, Halt, Nested, Stand, Stop, TURNS};
use es6_lexer::Punctuator;
use es6_makers::MakesMembers;
use shared_text::Name;

/// What follows `static`, which begins at the offset: the parameters of a method of that name, else a static method.
#[tactic(auto, using(es6_cursor::proofs::Rules::groups), unfolding(es6_reading::specs::Parts::member_after_static))]
#[inline(never)]
fn member_after_static<
    G: MakesMembers,
    E: Fn(&mut Cursor, u16, Flags, Nested) -> Result<G::Reading, Halt>,
    S: Fn(&mut Cursor, u16, Flags, Stand) -> Result<G::Statement, Halt>,
>(
    cursor: &mut Cursor,
    room: u16,
    flags: Flags,
    begin: u32,
    expression: &E,
    statement: &S,
) -> Result<G::Member, Halt>
    requires expressions { ReadsExpressions G.seen room (E.pre expression.now) (E.post expression.now) }
    requires statements { ReadsStatements G.seen_statement room (S.pre statement.now) (S.post statement.now) }
    ensures { ReadsAs G.seen_member (member_after_static (inner room) flags begin cursor.old) result cursor.new }
{
    let word = cursor.span_from(begin);
    if cursor.next_is_mark(Punctuator::LeftParenthesis) {
        let key = G::word_key(word, Name::of_bytes(cursor.alloc(), b"static")?);
        let method = method_after_key::<G, E, S>(
            cursor,
            room,
            MethodKind::PlainMethod,
            false,
            begin,
            key,
            expression,
            statement,
        )?;
        return Ok(G::member(cursor.span_from(begin), false, method));
    }
    let method = method::<G, E, S>(cursor, room, flags, expression, statement)?;
    Ok(G::member(cursor.span_from(begin), true, method))
}

/// A member that is no semicolon.
#[tactic(auto, using(es6_cursor::proofs::Rules::groups), unfolding(es6_reading::specs::Parts::one_member))]
pub fn one_member<
    G: MakesMembers,
    E: Fn(&mut Cursor, u16, Flags, Nested) -> Result<G::Reading, Halt>,
    S: Fn(&mut Cursor, u16, Flags, Stand) -> Result<G::Statement, Halt>,
>(
    cursor: &mut Cursor,
    room: u16,
    flags: Flags,
    expression: &E,
    statement: &S,
) -> Result<G::Member, Halt>
    requires expressions { ReadsExpressions G.seen room (E.pre expression.now) (E.post expression.now) }
    requires statements { ReadsStatements G.seen_statement room (S.pre statement.now) (S.post statement.now) }
    ensures { ReadsAs G.seen_member (one_member (inner room) flags cursor.old) result cursor.new }
{
    let begin = cursor.begin();
    if cursor.take_word(b"static") {
        return member_after_static::<G, E, S>(cursor, room, flags, begin, expression, statement);
    }
    let method = method::<G, E, S>(cursor, room, flags, expression, statement)?;
    Ok(G::member(cursor.span_from(begin), false, method))
}

/// The members after the opening brace, and the closing brace.
#[tactic(auto, using(es6_cursor::proofs::Rules::lists, crate::proofs::PartLists::member_turns), unfolding(es6_reading::specs::Parts::members))]
pub fn members<
    G: MakesMembers,
    E: Fn(&mut Cursor, u16, Flags, Nested) -> Result<G::Reading, Halt>,
    S: Fn(&mut Cursor, u16, Flags, Stand) -> Result<G::Statement, Halt>,
>(
    cursor: &mut Cursor,
    room: u16,
    flags: Flags,
    expression: &E,
    statement: &S,
) -> Result<G::Members, Halt>
    requires expressions { ReadsExpressions G.seen room (E.pre expression.now) (E.post expression.now) }
    requires statements { ReadsStatements G.seen_statement room (S.pre statement.now) (S.post statement.now) }
    ensures { ReadsAs G.seen_members (members (inner room) flags (inner room).fuel cursor.old) result cursor.new }
{
    let mut list = G::no_members(cursor.alloc());
    for turn in 0..TURNS {
        if cursor.take_mark(Punctuator::RightBrace) {
            return Ok(list);
        }
        if cursor.take_mark(Punctuator::Semicolon) {
            continue;
        }
        let member = inner_member::<G, E, S>(cursor, room, flags, expression, statement)?;
        G::push_member(&mut list, member)?;
    }
    Err(Halt::Stopped(Stop::Endless))
}
