//! Left-hand-side expressions (ECMA-262, 5.1 edition, 11.2).

ghost use Rattle.es5_reading.specs.Expressions.{after_callee, call_link, chain, head, index_link, links, member_link};
ghost use Rattle.es5_cursor.specs.Nests.{ReadsExpressions, ReadsStatements};
ghost use Rattle.es5_cursor.specs.Readers.{inner};
ghost use Rattle.es5_cursor.specs.Reads.{Reads};
ghost use Rattle.es5_read_expressions.specs.Links.{constructed, one_link};

use crate::lists::arguments;
use crate::primary::primary;
use es5_ast::{Expr5, Link5, Stat5};
use es5_cursor::{Cursor, Halt, Nested, Stop, TURNS, open};
use es5_nodes::lists::push;
use es5_nodes::{Read, expressions, parts};
use es5_tokens::Punctuator;
use sqlite_items::{Boxed, Items};

/// The arguments of `new`, which begins at the offset, if there are any.
#[tactic(auto, using(es5_cursor::proofs::Rules::groups), unfolding(es5_reading::specs::Expressions::after_callee))]
#[inline(never)]
fn after_callee<E: Fn(&mut Cursor, u16, bool, Nested) -> Result<Read, Halt>>(
    cursor: &mut Cursor,
    room: u16,
    begin: u32,
    callee: Boxed<Expr5>,
    expression: &E,
) -> Result<Read, Halt>
    requires expressions { ReadsExpressions room (E.pre expression.now) (E.post expression.now) }
    ensures { Reads (after_callee (inner room) begin callee cursor.old) result cursor.new }
{
    let arguments = if open(cursor, room, Punctuator::LeftParenthesis)? {
        arguments::<E>(cursor, room, expression)?
    } else {
        Items::new(cursor.alloc())
    };
    let span = cursor.span_from(begin);
    Ok(expressions::new(cursor.alloc(), span, callee, arguments)?)
}

/// What follows the word `new`, which begins at the offset.
#[tactic(auto, using(es5_cursor::proofs::Rules::groups))]
#[inline(never)]
fn constructed<E: Fn(&mut Cursor, u16, bool, Nested) -> Result<Read, Halt>>(
    cursor: &mut Cursor,
    room: u16,
    begin: u32,
    expression: &E,
) -> Result<Read, Halt>
    requires expressions { ReadsExpressions room (E.pre expression.now) (E.post expression.now) }
    ensures { Reads (constructed (inner room) begin cursor.old) result cursor.new }
{
    let callee = expression(cursor, room, false, Nested::Callee)?;
    after_callee::<E>(cursor, room, begin, callee.into_value(), expression)
}

/// What accesses and calls begin with.
#[tactic(auto, using(es5_cursor::proofs::Rules::groups), unfolding(es5_reading::specs::Expressions::head))]
fn head<
    E: Fn(&mut Cursor, u16, bool, Nested) -> Result<Read, Halt>,
    S: Fn(&mut Cursor, u16, bool, bool) -> Result<Boxed<Stat5>, Halt>,
>(cursor: &mut Cursor, room: u16, begin: u32, expression: &E, statement: &S) -> Result<Read, Halt>
    requires expressions { ReadsExpressions room (E.pre expression.now) (E.post expression.now) }
    requires statements { ReadsStatements room (S.pre statement.now) (S.post statement.now) }
    ensures { Reads (head (inner room) begin cursor.old) result cursor.new }
{
    if cursor.take_word(b"new") {
        return constructed::<E>(cursor, room, begin, expression);
    }
    primary::<E, S>(cursor, room, begin, expression, statement)
}

/// What follows a point, which begins at the offset.
#[tactic(auto, using(es5_cursor::proofs::Rules::groups), unfolding(es5_reading::specs::Expressions::member_link))]
#[inline(never)]
fn member_link(cursor: &mut Cursor, begin: u32) -> Result<Boxed<Link5>, Halt>
    ensures { Reads (member_link begin cursor.old) result cursor.new }
{
    let name = cursor.expect_any_name()?;
    let span = cursor.span_from(begin);
    Ok(parts::member(cursor.alloc(), span, name)?)
}

/// What follows a bracket, which begins at the offset.
#[tactic(auto, using(es5_cursor::proofs::Rules::groups), unfolding(es5_reading::specs::Expressions::index_link))]
#[inline(never)]
fn index_link<E: Fn(&mut Cursor, u16, bool, Nested) -> Result<Read, Halt>>(
    cursor: &mut Cursor,
    room: u16,
    begin: u32,
    expression: &E,
) -> Result<Boxed<Link5>, Halt>
    requires expressions { ReadsExpressions room (E.pre expression.now) (E.post expression.now) }
    ensures { Reads (index_link (inner room) begin cursor.old) result cursor.new }
{
    let index = expression(cursor, room, false, Nested::Sequence)?;
    cursor.expect_mark(Punctuator::RightBracket)?;
    let span = cursor.span_from(begin);
    Ok(parts::index(cursor.alloc(), span, index.into_value())?)
}

/// What follows a parenthesis, which begins at the offset.
#[tactic(auto, using(es5_cursor::proofs::Rules::groups), unfolding(es5_reading::specs::Expressions::call_link))]
#[inline(never)]
fn call_link<E: Fn(&mut Cursor, u16, bool, Nested) -> Result<Read, Halt>>(
    cursor: &mut Cursor,
    room: u16,
    begin: u32,
    expression: &E,
) -> Result<Boxed<Link5>, Halt>
    requires expressions { ReadsExpressions room (E.pre expression.now) (E.post expression.now) }
    ensures { Reads (call_link (inner room) begin cursor.old) result cursor.new }
{
    let arguments = arguments::<E>(cursor, room, expression)?;
    let span = cursor.span_from(begin);
    Ok(parts::call(cursor.alloc(), span, arguments)?)
}

/// An access, or a call where the mark says so, if one is next.
#[tactic(auto, using(es5_cursor::proofs::Rules::groups), unfolding(crate::specs::Links::one_link))]
fn link<E: Fn(&mut Cursor, u16, bool, Nested) -> Result<Read, Halt>>(
    cursor: &mut Cursor,
    room: u16,
    calls: bool,
    expression: &E,
) -> Result<Option<Boxed<Link5>>, Halt>
    requires expressions { ReadsExpressions room (E.pre expression.now) (E.post expression.now) }
    ensures { Reads (one_link (inner room) calls cursor.old) result cursor.new }
{
    let begin = cursor.begin();
    if cursor.take_mark(Punctuator::Dot) {
        return Ok(Some(member_link(cursor, begin)?));
    }
    if open(cursor, room, Punctuator::LeftBracket)? {
        return Ok(Some(index_link::<E>(cursor, room, begin, expression)?));
    }
    if !calls {
        return Ok(None);
    }
    if open(cursor, room, Punctuator::LeftParenthesis)? {
        return Ok(Some(call_link::<E>(cursor, room, begin, expression)?));
    }
    Ok(None)
}

#[tactic(auto, using(es5_cursor::proofs::Rules::lists, crate::proofs::Links::links_more, crate::proofs::Links::links_end, crate::proofs::Links::links_fault, crate::proofs::Links::links_stop))]
#[inline(never)]
fn links<E: Fn(&mut Cursor, u16, bool, Nested) -> Result<Read, Halt>>(
    cursor: &mut Cursor,
    room: u16,
    calls: bool,
    expression: &E,
) -> Result<Items<Link5>, Halt>
    requires expressions { ReadsExpressions room (E.pre expression.now) (E.post expression.now) }
    ensures { Reads (links (inner room) calls (inner room).fuel cursor.old) result cursor.new }
{
    let mut list = Items::new(cursor.alloc());
    for turn in 0..TURNS {
        let Some(link) = link::<E>(cursor, room, calls, expression)? else {
            return Ok(list);
        };
        push(&mut list, link)?;
    }
    Err(Halt::Stopped(Stop::Endless))
}

/// A primary expression or a `new`, with accesses, and with calls where the mark says so.
#[tactic(auto, using(es5_cursor::proofs::Rules::groups), unfolding(es5_reading::specs::Expressions::chain))]
pub fn chain<
    E: Fn(&mut Cursor, u16, bool, Nested) -> Result<Read, Halt>,
    S: Fn(&mut Cursor, u16, bool, bool) -> Result<Boxed<Stat5>, Halt>,
>(cursor: &mut Cursor, room: u16, calls: bool, expression: &E, statement: &S) -> Result<Read, Halt>
    requires expressions { ReadsExpressions room (E.pre expression.now) (E.post expression.now) }
    requires statements { ReadsStatements room (S.pre statement.now) (S.post statement.now) }
    ensures { Reads (chain (inner room) calls cursor.old) result cursor.new }
{
    let begin = cursor.begin();
    let head = head::<E, S>(cursor, room, begin, expression, statement)?;
    let links = links::<E>(cursor, room, calls, expression)?;
    let span = cursor.span_from(begin);
    Ok(expressions::chain(cursor.alloc(), span, head, links)?)
}
