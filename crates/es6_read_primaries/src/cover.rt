//! Groups (ECMA-262, 6th edition, 12.2.10), and the parentheses that only an arrow's parameters have (14.2).

ghost use Rattle.std.specs.Prelude.{◌≡◌, ◌∷◌, ◌-◌, [], IfOk, None, Some};
ghost use Rattle.es6_ast.specs.Tokens.{begin_of};
ghost use Rattle.es6_cursor.specs.Readers.{inner, turns};
ghost use Rattle.es6_cursor.specs.Reads.{Reads, ReadsAs};
ghost use Rattle.es6_read_parts.specs.Handed.{HasExpressions};
ghost use Rattle.es6_read_primaries.specs.Groups.{after_parameters, rest_from};
ghost use Rattle.es6_read_primaries.specs.Lists.{before_held, held_of};
ghost use Rattle.es6_reading.specs.Expressions.{closed_group, covered, covered_rest, grouped, held_group, held_parts, rest_after, whole};
ghost use Rattle.es6_reading.specs.Refine.{parameters_of};

use crate::readers::Primaries;
use es_text::Span;
use es6_ast::Rest;
use es6_cursor::{Cursor, Flags, Halt, Nested, Role, Stop, TURNS};
use es6_lexer::Punctuator;
use es6_makers::MakesGroups;
use std::alloc::{AllocError, Global};

/// The parts of a group, where the last of them ends, and whether a comma after it stands before a rest.
#[derive(Drop)]
pub struct Held<R, L> {
    pub first: R,
    pub more: L,
    pub end: u32,
    pub before_rest: bool,
}

/// Parentheses that stand before `=>`, from the offset on, with nothing before the rest.
#[tactic(auto, using(es6_cursor::proofs::Choices::choices), unfolding(es6_reading::specs::Expressions::covered, es6_reading::specs::Parser::refused))]
fn covered<G: MakesGroups>(
    cursor: &Cursor,
    begin: u32,
    rest: Option<Rest>,
) -> Result<G::Reading, Halt>
    ensures { ReadsAs G.seen (covered begin None rest cursor.now) result cursor.now }
{
    if !cursor.next_is_arrow() {
        return Err(Halt::Stopped(cursor.refused()));
    }
    Ok(G::cover(cursor.span_from(begin), rest))
}

/// The same with parameters before the rest.
#[tactic(auto, using(es6_cursor::proofs::Choices::choices), unfolding(es6_reading::specs::Expressions::covered, es6_reading::specs::Parser::refused))]
fn covered_after<G: MakesGroups>(
    cursor: &Cursor,
    begin: u32,
    held: G::Reading,
    rest: Rest,
) -> Result<G::Reading, Halt>
    ensures { ReadsAs G.seen (covered begin (Some (G.seen held).value) (Some rest) cursor.now) result cursor.now }
{
    if !cursor.next_is_arrow() {
        return Err(Halt::Stopped(cursor.refused()));
    }
    let span = cursor.span_from(begin);
    Ok(G::cover_of(cursor.alloc(), span, held, rest)?)
}

/// The name after the `...` at the offset, and the closing parenthesis.
#[tactic(auto, using(es6_cursor::proofs::Rules::groups), unfolding(crate::specs::Groups::rest_from))]
fn rest_from(cursor: &mut Cursor, dots: u32) -> Result<Rest, Halt>
    ensures { Reads (rest_from dots cursor.old) result cursor.new }
{
    let name = cursor.identifier()?;
    let span = cursor.span_from(dots);
    cursor.expect_mark(Punctuator::RightParenthesis)?;
    Ok(Rest { span, name })
}

/// The name after the `...` at the second offset, and the closing parenthesis, with nothing before them.
#[tactic(auto, using(crate::proofs::Groups::covered_rest_is))]
fn rest_alone<G: MakesGroups>(
    cursor: &mut Cursor,
    begin: u32,
    dots: u32,
) -> Result<G::Reading, Halt>
    ensures { ReadsAs G.seen (covered_rest begin dots None cursor.old) result cursor.new }
{
    let rest = rest_from(cursor, dots)?;
    covered::<G>(cursor, begin, Some(rest))
}

/// The same with parameters before them.
#[tactic(auto, using(crate::proofs::Groups::covered_rest_is))]
fn rest_behind<G: MakesGroups>(
    cursor: &mut Cursor,
    begin: u32,
    dots: u32,
    held: G::Reading,
) -> Result<G::Reading, Halt>
    ensures { ReadsAs G.seen (covered_rest begin dots (Some (G.seen held).value) cursor.old) result cursor.new }
{
    let rest = rest_from(cursor, dots)?;
    covered_after::<G>(cursor, begin, held, rest)
}

/// What stands in the parentheses, which begins at the offset.
fn whole<G: MakesGroups>(
    alloc: Global,
    inside: u32,
    held: Held<G::Reading, G::Expressions>,
) -> Result<G::Reading, AllocError>
    ensures { IfOk result (λ x. (G.seen x).value ≡ whole inside (held_of G.seen G.seen_expressions held)) }
{
    let span = Span {
        begin: inside,
        end: held.end,
    };
    G::sequenced(alloc, span, held.first, held.more)
}

/// The rest that has to stand after parameters, which begin at the offset `inside`.
#[tactic(auto, using(es6_cursor::proofs::Choices::choices), unfolding(es6_reading::specs::Parser::refused))]
fn after_parameters<G: MakesGroups>(
    cursor: &mut Cursor,
    begin: u32,
    inside: u32,
    held: Held<G::Reading, G::Expressions>,
) -> Result<G::Reading, Halt>
    ensures { ReadsAs G.seen (after_parameters begin (begin_of cursor.old.tokens) (whole inside (held_of G.seen G.seen_expressions held)) cursor.old) result cursor.new }
{
    let dots = cursor.begin();
    if !cursor.take_mark(Punctuator::Ellipsis) {
        return Err(Halt::Stopped(cursor.refused()));
    }
    let whole = whole::<G>(cursor.alloc(), inside, held)?;
    rest_behind::<G>(cursor, begin, dots, whole)
}

/// The rest that may stand after parts which are parameters.
#[tactic(auto, using(crate::proofs::Groups::rest_is))]
fn rest_after<G: MakesGroups>(
    cursor: &mut Cursor,
    begin: u32,
    inside: u32,
    held: Held<G::Reading, G::Expressions>,
) -> Result<G::Reading, Halt>
    ensures { ReadsAs G.seen (rest_after begin (begin_of cursor.old.tokens) (whole inside (held_of G.seen G.seen_expressions held)) (parameters_of turns ((G.seen held.first).value ∷ G.seen_expressions held.more)) cursor.old) result cursor.new }
{
    G::held_parameters(cursor, &held.first, &held.more)?;
    after_parameters::<G>(cursor, begin, inside, held)
}

#[tactic(auto, using(es6_cursor::proofs::Rules::groups), unfolding(es6_reading::specs::Expressions::closed_group))]
fn closed_group<G: MakesGroups>(
    cursor: &mut Cursor,
    begin: u32,
    held: G::Reading,
) -> Result<G::Reading, Halt>
    ensures { ReadsAs G.seen (closed_group begin (G.seen held).value cursor.old) result cursor.new }
{
    cursor.expect_mark(Punctuator::RightParenthesis)?;
    let span = cursor.span_from(begin);
    Ok(G::group(cursor.alloc(), span, held)?)
}

impl<
    G: MakesGroups,
    E: Fn(&mut Cursor, u16, Flags, Nested) -> Result<G::Reading, Halt>,
    S,
> Primaries<'_, G, E, S> {
    /// The parts after the first one, up to one that no comma follows, or a comma before a rest.
    #[tactic(auto, using(es6_cursor::proofs::Loops::turns_is, crate::proofs::HeldParts::held_turns))]
    fn more_held(
        &self,
        cursor: &mut Cursor,
        role: Role,
        first: G::Reading,
    ) -> Result<Held<G::Reading, G::Expressions>, Halt>
        requires expressions { HasExpressions G.seen E.pre E.post self.now.here }
        ensures { ReadsAs (held_of G.seen G.seen_expressions) (before_held ((G.seen first).value ∷ []) (held_parts (inner self.now.here.room) self.now.here.flags role (turns - 1) cursor.old)) result cursor.new }
    {
        let mut more = G::no_expressions(cursor.alloc());
        for turn in 1..TURNS {
            let part = self.assignment_within(cursor)?;
            let end = cursor.last_end();
            G::push_expression(&mut more, part)?;
            if !cursor.take_mark(Punctuator::Comma) {
                return Ok(Held {
                    first,
                    more,
                    end,
                    before_rest: false,
                });
            }
            if role.is_leading() & cursor.next_is_mark(Punctuator::Ellipsis) {
                return Ok(Held {
                    first,
                    more,
                    end,
                    before_rest: true,
                });
            }
        }
        Err(Halt::Stopped(Stop::Endless))
    }

    /// The parts, up to one that no comma follows, or a comma before a rest.
    #[tactic(auto, using(crate::proofs::HeldParts::first_more))]
    fn held_parts(
        &self,
        cursor: &mut Cursor,
        role: Role,
    ) -> Result<Held<G::Reading, G::Expressions>, Halt>
        requires expressions { HasExpressions G.seen E.pre E.post self.now.here }
        ensures { ReadsAs (held_of G.seen G.seen_expressions) (held_parts (inner self.now.here.room) self.now.here.flags role (inner self.now.here.room).fuel cursor.old) result cursor.new }
    {
        let first = self.assignment_within(cursor)?;
        let end = cursor.last_end();
        let more = G::no_expressions(cursor.alloc());
        if !cursor.take_mark(Punctuator::Comma) {
            return Ok(Held {
                first,
                more,
                end,
                before_rest: false,
            });
        }
        if role.is_leading() & cursor.next_is_mark(Punctuator::Ellipsis) {
            return Ok(Held {
                first,
                more,
                end,
                before_rest: true,
            });
        }
        self.more_held(cursor, role, first)
    }

    #[tactic(auto, using(es6_cursor::proofs::Choices::choices, es6_cursor::proofs::Rooms::fuel_turns), unfolding(es6_reading::specs::Expressions::held_group))]
    fn held_group(&self, cursor: &mut Cursor, role: Role, begin: u32) -> Result<G::Reading, Halt>
        requires expressions { HasExpressions G.seen E.pre E.post self.now.here }
        ensures { ReadsAs G.seen (held_group (inner self.now.here.room) self.now.here.flags role begin cursor.old) result cursor.new }
    {
        let inside = cursor.begin();
        let held = self.held_parts(cursor, role)?;
        if held.before_rest {
            return rest_after::<G>(cursor, begin, inside, held);
        }
        let whole = whole::<G>(cursor.alloc(), inside, held)?;
        closed_group::<G>(cursor, begin, whole)
    }

    /// What follows the opening parenthesis at the offset.
    #[tactic(auto, using(es6_cursor::proofs::Choices::choices), unfolding(es6_reading::specs::Expressions::grouped))]
    pub fn grouped(&self, cursor: &mut Cursor, role: Role, begin: u32) -> Result<G::Reading, Halt>
        requires expressions { HasExpressions G.seen E.pre E.post self.now.here }
        ensures { ReadsAs G.seen (grouped (inner self.now.here.room) self.now.here.flags role begin cursor.old) result cursor.new }
    {
        if !role.is_leading() {
            return self.held_group(cursor, role, begin);
        }
        if cursor.take_mark(Punctuator::RightParenthesis) {
            return covered::<G>(cursor, begin, None);
        }
        let dots = cursor.begin();
        if cursor.take_mark(Punctuator::Ellipsis) {
            return rest_alone::<G>(cursor, begin, dots);
        }
        self.held_group(cursor, role, begin)
    }
}
