//! Patterns that bind (ECMA-262, 6th edition, 13.3.3).

ghost use Rattle.es6_cursor.specs.Nests.{ReadsExpressions};
ghost use Rattle.es6_cursor.specs.Readers.{before, inner};
ghost use Rattle.es6_cursor.specs.Reads.{ReadsAs};
ghost use Rattle.es6_read_parts.specs.Patterns.{object_pattern};
ghost use Rattle.es6_reading.specs.Parts.{array_parts, binding, binding_pattern, initialized, keyed_part, named_part, object_parts, one_object_part, one_part, rest_part};

use crate::inner::{inner_object_part, inner_part};
use crate::keys::key;
use es6_ast::Identifier;
use es6_cursor::{Cursor, Flags, Halt, Nested, Stop, TURNS, enter, open};
use es6_lexer::Punctuator;
use es6_makers::{MakesArrayParts, MakesBindings, MakesObjectParts};

/// These parts, and what follows the `...` of a rest, which begins at the offset, up to the closing bracket.
#[tactic(auto, using(es6_cursor::proofs::Rules::groups), unfolding(es6_reading::specs::Parts::rest_part))]
#[inline(never)]
fn rest_part<G: MakesArrayParts>(
    cursor: &mut Cursor,
    begin: u32,
    parts: G::ArrayParts,
) -> Result<G::ArrayParts, Halt>
    ensures { ReadsAs G.seen_array_parts (before (G.seen_array_parts parts) (rest_part begin cursor.old)) result cursor.new }
{
    let name = cursor.identifier()?;
    let span = cursor.span_from(begin);
    let pattern = G::name_target(cursor.alloc(), name)?;
    cursor.expect_mark(Punctuator::RightBracket)?;
    let mut list = parts;
    G::push_rest(&mut list, span, pattern)?;
    Ok(list)
}

/// The parts after the opening bracket, and the closing bracket.
#[tactic(auto, using(es6_cursor::proofs::Rules::lists, crate::proofs::PatternLists::array_turns), unfolding(es6_reading::specs::Parts::array_parts))]
#[cycle(reader)]
#[inline(never)]
fn array_parts<
    G: MakesBindings,
    E: Fn(&mut Cursor, u16, Flags, Nested) -> Result<G::Reading, Halt>,
>(cursor: &mut Cursor, room: u16, flags: Flags, expression: &E) -> Result<G::ArrayParts, Halt>
    requires expressions { ReadsExpressions G.seen room (E.pre expression.now) (E.post expression.now) }
    ensures { ReadsAs G.seen_array_parts (array_parts (inner room) flags (inner room).fuel cursor.old) result cursor.new }
{
    let mut list = G::no_array_parts(cursor.alloc());
    for turn in 0..TURNS {
        let begin = cursor.begin();
        if cursor.take_mark(Punctuator::RightBracket) {
            return Ok(list);
        }
        if cursor.take_mark(Punctuator::Comma) {
            G::push_skipped(&mut list)?;
            continue;
        }
        if cursor.take_mark(Punctuator::Ellipsis) {
            return rest_part::<G>(cursor, begin, list);
        }
        let part = inner_part::<G, E>(cursor, room, flags, expression)?;
        G::push_single(&mut list, part)?;
        if !cursor.take_mark(Punctuator::Comma) {
            cursor.expect_mark(Punctuator::RightBracket)?;
            return Ok(list);
        }
    }
    Err(Halt::Stopped(Stop::Endless))
}

/// The properties after the opening brace, and the closing brace.
#[tactic(auto, using(es6_cursor::proofs::Rules::lists, crate::proofs::PatternLists::object_turns), unfolding(es6_reading::specs::Parts::object_parts))]
#[cycle(reader)]
#[inline(never)]
fn object_parts<
    G: MakesBindings,
    E: Fn(&mut Cursor, u16, Flags, Nested) -> Result<G::Reading, Halt>,
>(cursor: &mut Cursor, room: u16, flags: Flags, expression: &E) -> Result<G::ObjectParts, Halt>
    requires expressions { ReadsExpressions G.seen room (E.pre expression.now) (E.post expression.now) }
    ensures { ReadsAs G.seen_object_parts (object_parts (inner room) flags (inner room).fuel cursor.old) result cursor.new }
{
    let mut list = G::no_object_parts(cursor.alloc());
    for turn in 0..TURNS {
        if cursor.take_mark(Punctuator::RightBrace) {
            return Ok(list);
        }
        let part = inner_object_part::<G, E>(cursor, room, flags, expression)?;
        G::push_object_part(&mut list, part)?;
        if !cursor.take_mark(Punctuator::Comma) {
            cursor.expect_mark(Punctuator::RightBrace)?;
            return Ok(list);
        }
    }
    Err(Halt::Stopped(Stop::Endless))
}

/// ObjectBindingPattern, which begins at the offset.
#[tactic(auto, using(es6_cursor::proofs::Rules::groups), unfolding(crate::specs::Patterns::object_pattern))]
#[cycle(reader)]
#[inline(never)]
fn object_pattern<
    G: MakesBindings,
    E: Fn(&mut Cursor, u16, Flags, Nested) -> Result<G::Reading, Halt>,
>(
    cursor: &mut Cursor,
    room: u16,
    flags: Flags,
    begin: u32,
    expression: &E,
) -> Result<G::Pattern, Halt>
    requires expressions { ReadsExpressions G.seen room (E.pre expression.now) (E.post expression.now) }
    ensures { ReadsAs G.seen_pattern (object_pattern (inner room) flags begin cursor.old) result cursor.new }
{
    enter(cursor, room, Punctuator::LeftBrace)?;
    let parts = object_parts::<G, E>(cursor, room, flags, expression)?;
    Ok(G::object_pattern(cursor.span_from(begin), parts))
}

/// BindingPattern, which begins at the offset.
#[tactic(auto, using(es6_cursor::proofs::Rules::groups), unfolding(es6_reading::specs::Parts::binding_pattern, crate::specs::Patterns::object_pattern))]
#[cycle(reader)]
#[inline(never)]
fn binding_pattern<
    G: MakesBindings,
    E: Fn(&mut Cursor, u16, Flags, Nested) -> Result<G::Reading, Halt>,
>(
    cursor: &mut Cursor,
    room: u16,
    flags: Flags,
    begin: u32,
    expression: &E,
) -> Result<G::Pattern, Halt>
    requires expressions { ReadsExpressions G.seen room (E.pre expression.now) (E.post expression.now) }
    ensures { ReadsAs G.seen_pattern (binding_pattern (inner room) flags begin cursor.old) result cursor.new }
{
    if open(cursor, room, Punctuator::LeftBracket)? {
        let parts = array_parts::<G, E>(cursor, room, flags, expression)?;
        return Ok(G::array_pattern(cursor.span_from(begin), parts));
    }
    object_pattern::<G, E>(cursor, room, flags, begin, expression)
}

/// A name that is bound, or a BindingPattern.
#[tactic(auto, using(es6_cursor::proofs::Rules::groups), unfolding(es6_reading::specs::Parts::binding))]
#[cycle(reader)]
pub fn binding<
    G: MakesBindings,
    E: Fn(&mut Cursor, u16, Flags, Nested) -> Result<G::Reading, Halt>,
>(cursor: &mut Cursor, room: u16, flags: Flags, expression: &E) -> Result<G::Pattern, Halt>
    requires expressions { ReadsExpressions G.seen room (E.pre expression.now) (E.post expression.now) }
    ensures { ReadsAs G.seen_pattern (binding (inner room) flags cursor.old) result cursor.new }
{
    let begin = cursor.begin();
    if let Some(name) = cursor.take_free_name()? {
        let span = cursor.span_from(begin);
        return Ok(G::name_target(cursor.alloc(), Identifier { span, name })?);
    }
    binding_pattern::<G, E>(cursor, room, flags, begin, expression)
}

/// A pattern, and the initializer that may follow it, with the second flags.
#[tactic(auto, using(es6_cursor::proofs::Rules::groups), unfolding(es6_reading::specs::Parts::initialized))]
#[cycle(reader)]
pub fn initialized<
    G: MakesBindings,
    E: Fn(&mut Cursor, u16, Flags, Nested) -> Result<G::Reading, Halt>,
>(
    cursor: &mut Cursor,
    room: u16,
    flags: Flags,
    value_flags: Flags,
    expression: &E,
) -> Result<G::Part, Halt>
    requires expressions { ReadsExpressions G.seen room (E.pre expression.now) (E.post expression.now) }
    ensures { ReadsAs G.seen_part (initialized (inner room) flags value_flags cursor.old) result cursor.new }
{
    let begin = cursor.begin();
    let pattern = binding::<G, E>(cursor, room, flags, expression)?;
    if !cursor.take_mark(Punctuator::Assign) {
        return Ok(G::part(cursor.span_from(begin), pattern));
    }
    let value = expression(cursor, room, value_flags, Nested::Assignment)?;
    Ok(G::part_with_default(cursor.span_from(begin), pattern, value))
}

/// BindingElement.
#[tactic(auto, using(es6_cursor::proofs::Rules::groups), unfolding(es6_reading::specs::Parts::one_part))]
#[cycle(reader)]
pub fn one_part<
    G: MakesBindings,
    E: Fn(&mut Cursor, u16, Flags, Nested) -> Result<G::Reading, Halt>,
>(cursor: &mut Cursor, room: u16, flags: Flags, expression: &E) -> Result<G::Part, Halt>
    requires expressions { ReadsExpressions G.seen room (E.pre expression.now) (E.post expression.now) }
    ensures { ReadsAs G.seen_part (one_part (inner room) flags cursor.old) result cursor.new }
{
    initialized::<G, E>(cursor, room, flags, flags.with_in(), expression)
}

/// What follows the colon of a property with this key, which begins at the offset.
#[tactic(auto, using(es6_cursor::proofs::Rules::groups), unfolding(es6_reading::specs::Parts::keyed_part))]
#[cycle(reader)]
fn keyed_part<G: MakesBindings, E: Fn(&mut Cursor, u16, Flags, Nested) -> Result<G::Reading, Halt>>(
    cursor: &mut Cursor,
    room: u16,
    flags: Flags,
    begin: u32,
    key: G::Key,
    expression: &E,
) -> Result<G::ObjectPart, Halt>
    requires expressions { ReadsExpressions G.seen room (E.pre expression.now) (E.post expression.now) }
    ensures { ReadsAs G.seen_object_part (keyed_part (inner room) flags begin (G.seen_key key) cursor.old) result cursor.new }
{
    let part = one_part::<G, E>(cursor, room, flags, expression)?;
    Ok(G::keyed_part(cursor.span_from(begin), key, part))
}

/// What follows a name that is bound under itself and begins at the offset: its default, or nothing.
#[tactic(auto, using(es6_cursor::proofs::Rules::groups), unfolding(es6_reading::specs::Parts::named_part))]
#[inline(never)]
fn named_part<
    G: MakesObjectParts,
    E: Fn(&mut Cursor, u16, Flags, Nested) -> Result<G::Reading, Halt>,
>(
    cursor: &mut Cursor,
    room: u16,
    flags: Flags,
    begin: u32,
    name: Identifier,
    expression: &E,
) -> Result<G::ObjectPart, Halt>
    requires expressions { ReadsExpressions G.seen room (E.pre expression.now) (E.post expression.now) }
    ensures { ReadsAs G.seen_object_part (named_part (inner room) flags begin name cursor.old) result cursor.new }
{
    if !cursor.take_mark(Punctuator::Assign) {
        let span = name.span;
        let pattern = G::name_target(cursor.alloc(), name)?;
        return Ok(G::named_part(G::part(span, pattern)));
    }
    let value = expression(cursor, room, flags.with_in(), Nested::Assignment)?;
    let pattern = G::name_target(cursor.alloc(), name)?;
    let part = G::part_with_default(cursor.span_from(begin), pattern, value);
    Ok(G::named_part(part))
}

/// BindingProperty.
#[tactic(auto, using(es6_cursor::proofs::Rules::groups), unfolding(es6_reading::specs::Parts::one_object_part))]
#[cycle(reader)]
pub fn one_object_part<
    G: MakesBindings,
    E: Fn(&mut Cursor, u16, Flags, Nested) -> Result<G::Reading, Halt>,
>(cursor: &mut Cursor, room: u16, flags: Flags, expression: &E) -> Result<G::ObjectPart, Halt>
    requires expressions { ReadsExpressions G.seen room (E.pre expression.now) (E.post expression.now) }
    ensures { ReadsAs G.seen_object_part (one_object_part (inner room) flags cursor.old) result cursor.new }
{
    let begin = cursor.begin();
    if let Some(name) = cursor.take_free_name()? {
        let span = cursor.span_from(begin);
        if cursor.take_mark(Punctuator::Colon) {
            let key = G::word_key(span, name);
            return keyed_part::<G, E>(cursor, room, flags, begin, key, expression);
        }
        let name = Identifier { span, name };
        return named_part::<G, E>(cursor, room, flags, begin, name, expression);
    }
    let key = key::<G, E>(cursor, room, flags, expression)?;
    cursor.expect_mark(Punctuator::Colon)?;
    keyed_part::<G, E>(cursor, room, flags, begin, key, expression)
}
