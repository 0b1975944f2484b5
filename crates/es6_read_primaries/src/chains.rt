//! Left-hand-side expressions (ECMA-262, 6th edition, 12.3).

ghost use Rattle.es6_cursor.specs.Readers.{inner};
ghost use Rattle.es6_cursor.specs.Reads.{ReadsAs};
ghost use Rattle.es6_read_parts.specs.Handed.{HasExpressions, HasStatements};
ghost use Rattle.es6_read_primaries.specs.Links.{constructed, if_made, one_call, one_link, one_link_tail, super_arguments, super_index};
ghost use Rattle.es6_reading.specs.Expressions.{after_callee, after_new, after_super, call_link, chain, head, index_link, links, member_link, super_call};

use crate::readers::Primaries;
use es6_cursor::{Cursor, Flags, Halt, Nested, Role, Stand, Stop, TURNS, enter, open};
use es6_lexer::Punctuator;
use es6_makers::{MakesExpressions, MakesLinks};
use es6_read_parts::arguments;

impl<
    G: MakesLinks,
    E: Fn(&mut Cursor, u16, Flags, Nested) -> Result<G::Reading, Halt>,
    S,
> Primaries<'_, G, E, S> {
    /// The arguments of `new`, which begins at the offset, after the parenthesis that opens them.
    #[tactic(auto, using(es6_cursor::proofs::Rules::groups), unfolding(crate::specs::Links::constructed))]
    fn constructed(
        &self,
        cursor: &mut Cursor,
        begin: u32,
        callee: G::Reading,
    ) -> Result<G::Reading, Halt>
        requires expressions { HasExpressions G.seen E.pre E.post self.now.here }
        ensures { ReadsAs G.seen (constructed (inner self.now.here.room) self.now.here.flags begin (G.seen callee).value cursor.old) result cursor.new }
    {
        let arguments = arguments::<G, E>(
            cursor,
            self.here.room,
            self.here.flags,
            self.here.expression,
        )?;
        let span = cursor.span_from(begin);
        Ok(G::new_expression(cursor.alloc(), span, callee, arguments)?)
    }

    /// The arguments of `new`, which begins at the offset, if there are any.
    #[tactic(auto, using(es6_cursor::proofs::Rules::groups), unfolding(es6_reading::specs::Expressions::after_callee, crate::specs::Links::constructed))]
    fn after_callee(
        &self,
        cursor: &mut Cursor,
        begin: u32,
        callee: G::Reading,
    ) -> Result<G::Reading, Halt>
        requires expressions { HasExpressions G.seen E.pre E.post self.now.here }
        ensures { ReadsAs G.seen (after_callee (inner self.now.here.room) self.now.here.flags begin (G.seen callee).value cursor.old) result cursor.new }
    {
        if open(cursor, self.here.room, Punctuator::LeftParenthesis)? {
            return self.constructed(cursor, begin, callee);
        }
        let span = cursor.span_from(begin);
        let arguments = G::no_arguments(cursor.alloc());
        Ok(G::new_expression(cursor.alloc(), span, callee, arguments)?)
    }

    /// After `new`, which begins at the offset: `.target`, or what is constructed.
    #[tactic(auto, using(es6_cursor::proofs::Rules::groups), unfolding(es6_reading::specs::Expressions::after_new))]
    fn after_new(&self, cursor: &mut Cursor, begin: u32) -> Result<G::Reading, Halt>
        requires expressions { HasExpressions G.seen E.pre E.post self.now.here }
        ensures { ReadsAs G.seen (after_new (inner self.now.here.room) self.now.here.flags begin cursor.old) result cursor.new }
    {
        if cursor.take_mark(Punctuator::Dot) {
            cursor.expect_word(b"target")?;
            return Ok(G::new_target(cursor.span_from(begin)));
        }
        let callee = (self.here.expression)(
            cursor,
            self.here.room,
            self.here.flags,
            Nested::Callee,
        )?;
        self.after_callee(cursor, begin, callee)
    }

    /// The call of `super`, which begins at the offset (12.3.5).
    #[tactic(auto, using(es6_cursor::proofs::Rules::groups), unfolding(crate::specs::Links::super_arguments))]
    fn super_arguments(&self, cursor: &mut Cursor, begin: u32) -> Result<G::Reading, Halt>
        requires expressions { HasExpressions G.seen E.pre E.post self.now.here }
        ensures { ReadsAs G.seen (super_arguments (inner self.now.here.room) self.now.here.flags begin cursor.old) result cursor.new }
    {
        enter(cursor, self.here.room, Punctuator::LeftParenthesis)?;
        let arguments = arguments::<G, E>(
            cursor,
            self.here.room,
            self.here.flags,
            self.here.expression,
        )?;
        Ok(G::super_call(cursor.span_from(begin), arguments))
    }

    /// The same where the role lets calls stand.
    #[tactic(auto, using(es6_cursor::proofs::Rules::groups), unfolding(es6_reading::specs::Expressions::super_call, es6_reading::specs::Parser::refused, crate::specs::Links::super_arguments))]
    fn super_call(&self, cursor: &mut Cursor, role: Role, begin: u32) -> Result<G::Reading, Halt>
        requires expressions { HasExpressions G.seen E.pre E.post self.now.here }
        ensures { ReadsAs G.seen (super_call (inner self.now.here.room) self.now.here.flags role begin cursor.old) result cursor.new }
    {
        if !role.has_calls() {
            return Err(Halt::Stopped(cursor.refused()));
        }
        self.super_arguments(cursor, begin)
    }

    /// The property in brackets after `super`, which begins at the offset (12.3.5).
    #[tactic(auto, using(es6_cursor::proofs::Rules::groups), unfolding(crate::specs::Links::super_index))]
    fn super_index(&self, cursor: &mut Cursor, begin: u32) -> Result<G::Reading, Halt>
        requires expressions { HasExpressions G.seen E.pre E.post self.now.here }
        ensures { ReadsAs G.seen (super_index (inner self.now.here.room) self.now.here.flags begin cursor.old) result cursor.new }
    {
        let index = self.sequence_within(cursor)?;
        cursor.expect_mark(Punctuator::RightBracket)?;
        let span = cursor.span_from(begin);
        Ok(G::super_index(cursor.alloc(), span, index)?)
    }

    /// After `super`, which begins at the offset (12.3.5).
    #[tactic(auto, using(es6_cursor::proofs::Rules::groups), unfolding(es6_reading::specs::Expressions::after_super, crate::specs::Links::super_index))]
    fn after_super(&self, cursor: &mut Cursor, role: Role, begin: u32) -> Result<G::Reading, Halt>
        requires expressions { HasExpressions G.seen E.pre E.post self.now.here }
        ensures { ReadsAs G.seen (after_super (inner self.now.here.room) self.now.here.flags role begin cursor.old) result cursor.new }
    {
        if cursor.take_mark(Punctuator::Dot) {
            let name = cursor.name_of_any_kind()?;
            return Ok(G::super_member(cursor.span_from(begin), name));
        }
        if open(cursor, self.here.room, Punctuator::LeftBracket)? {
            return self.super_index(cursor, begin);
        }
        self.super_call(cursor, role, begin)
    }
}

impl<
    G: MakesExpressions,
    E: Fn(&mut Cursor, u16, Flags, Nested) -> Result<G::Reading, Halt>,
    S: Fn(&mut Cursor, u16, Flags, Stand) -> Result<G::Statement, Halt>,
> Primaries<'_, G, E, S> {
    /// What accesses and calls begin with.
    #[tactic(auto, using(es6_cursor::proofs::Rules::groups), unfolding(es6_reading::specs::Expressions::head))]
    fn head(&self, cursor: &mut Cursor, role: Role, begin: u32) -> Result<G::Reading, Halt>
        requires expressions { HasExpressions G.seen E.pre E.post self.now.here }
        requires statements { HasStatements G.seen_statement S.pre S.post self.now.here }
        ensures { ReadsAs G.seen (head (inner self.now.here.room) self.now.here.flags role begin cursor.old) result cursor.new }
    {
        if cursor.take_word(b"new") {
            return self.after_new(cursor, begin);
        }
        if cursor.take_word(b"super") {
            return self.after_super(cursor, role, begin);
        }
        self.primary(cursor, role, begin)
    }
}

/// What follows a point, which begins at the offset.
#[tactic(auto, using(es6_cursor::proofs::Rules::groups), unfolding(es6_reading::specs::Expressions::member_link))]
fn member_link<G: MakesLinks>(cursor: &mut Cursor, begin: u32) -> Result<G::Link, Halt>
    ensures { ReadsAs G.seen_link (member_link begin cursor.old) result cursor.new }
{
    let name = cursor.name_of_any_kind()?;
    Ok(G::member_link(cursor.span_from(begin), name))
}

impl<
    G: MakesLinks,
    E: Fn(&mut Cursor, u16, Flags, Nested) -> Result<G::Reading, Halt>,
    S,
> Primaries<'_, G, E, S> {
    /// What follows a bracket, which begins at the offset.
    #[tactic(auto, using(es6_cursor::proofs::Rules::groups), unfolding(es6_reading::specs::Expressions::index_link))]
    fn index_link(&self, cursor: &mut Cursor, begin: u32) -> Result<G::Link, Halt>
        requires expressions { HasExpressions G.seen E.pre E.post self.now.here }
        ensures { ReadsAs G.seen_link (index_link (inner self.now.here.room) self.now.here.flags begin cursor.old) result cursor.new }
    {
        let index = self.sequence_within(cursor)?;
        cursor.expect_mark(Punctuator::RightBracket)?;
        Ok(G::index_link(cursor.span_from(begin), index))
    }

    /// What follows a parenthesis, which begins at the offset.
    #[tactic(auto, using(es6_cursor::proofs::Rules::groups), unfolding(es6_reading::specs::Expressions::call_link))]
    fn call_link(&self, cursor: &mut Cursor, begin: u32) -> Result<G::Link, Halt>
        requires expressions { HasExpressions G.seen E.pre E.post self.now.here }
        ensures { ReadsAs G.seen_link (call_link (inner self.now.here.room) self.now.here.flags begin cursor.old) result cursor.new }
    {
        let arguments = arguments::<G, E>(
            cursor,
            self.here.room,
            self.here.flags,
            self.here.expression,
        )?;
        Ok(G::call_link(cursor.span_from(begin), arguments))
    }

    /// A call, if one is next.
    #[tactic(auto, using(es6_cursor::proofs::Rules::groups))]
    fn call(&self, cursor: &mut Cursor, begin: u32) -> Result<Option<G::Link>, Halt>
        requires expressions { HasExpressions G.seen E.pre E.post self.now.here }
        ensures { ReadsAs (if_made G.seen_link) (one_call (inner self.now.here.room) self.now.here.flags begin cursor.old) result cursor.new }
    {
        if open(cursor, self.here.room, Punctuator::LeftParenthesis)? {
            return Ok(Some(self.call_link(cursor, begin)?));
        }
        Ok(None)
    }

    /// A template, or a call where the mark says so, if one is next.
    #[tactic(auto, using(crate::proofs::Links::tag_is, crate::proofs::Links::tag_call, crate::proofs::Links::tag_none, crate::proofs::Links::tag_fault))]
    fn link_tail(
        &self,
        cursor: &mut Cursor,
        calls: bool,
        begin: u32,
    ) -> Result<Option<G::Link>, Halt>
        requires expressions { HasExpressions G.seen E.pre E.post self.now.here }
        ensures { ReadsAs (if_made G.seen_link) (one_link_tail (inner self.now.here.room) self.now.here.flags calls begin cursor.old) result cursor.new }
    {
        if let Some(template) = self.template(cursor, begin)? {
            return Ok(Some(G::tagged_link(template)));
        }
        if !calls {
            return Ok(None);
        }
        self.call(cursor, begin)
    }

    /// An access, or a call where the mark says so, if one is next.
    #[tactic(auto, using(es6_cursor::proofs::Rules::groups, crate::proofs::Links::one_link_is))]
    fn link(&self, cursor: &mut Cursor, calls: bool) -> Result<Option<G::Link>, Halt>
        requires expressions { HasExpressions G.seen E.pre E.post self.now.here }
        ensures { ReadsAs (if_made G.seen_link) (one_link (inner self.now.here.room) self.now.here.flags calls cursor.old) result cursor.new }
    {
        let begin = cursor.begin();
        if cursor.take_mark(Punctuator::Dot) {
            return Ok(Some(member_link::<G>(cursor, begin)?));
        }
        if open(cursor, self.here.room, Punctuator::LeftBracket)? {
            return Ok(Some(self.index_link(cursor, begin)?));
        }
        self.link_tail(cursor, calls, begin)
    }

    #[tactic(auto, using(es6_cursor::proofs::Rules::lists, crate::proofs::Links::links_more, crate::proofs::Links::links_end, crate::proofs::Links::links_fault, crate::proofs::Links::links_stop))]
    fn links(&self, cursor: &mut Cursor, calls: bool) -> Result<G::Links, Halt>
        requires expressions { HasExpressions G.seen E.pre E.post self.now.here }
        ensures { ReadsAs G.seen_links (links (inner self.now.here.room) self.now.here.flags calls (inner self.now.here.room).fuel cursor.old) result cursor.new }
    {
        let mut list = G::no_links(cursor.alloc());
        for turn in 0..TURNS {
            let Some(link) = self.link(cursor, calls)? else {
                return Ok(list);
            };
            G::push_link(&mut list, link)?;
        }
        Err(Halt::Stopped(Stop::Endless))
    }
}

impl<
    G: MakesExpressions,
    E: Fn(&mut Cursor, u16, Flags, Nested) -> Result<G::Reading, Halt>,
    S: Fn(&mut Cursor, u16, Flags, Stand) -> Result<G::Statement, Halt>,
> Primaries<'_, G, E, S> {
    /// What accesses and calls begin with, and these, as far as they may stand there.
    #[tactic(auto, using(es6_cursor::proofs::Rules::groups), unfolding(es6_reading::specs::Expressions::chain))]
    pub fn chain(&self, cursor: &mut Cursor, role: Role) -> Result<G::Reading, Halt>
        requires expressions { HasExpressions G.seen E.pre E.post self.now.here }
        requires statements { HasStatements G.seen_statement S.pre S.post self.now.here }
        ensures { ReadsAs G.seen (chain (inner self.now.here.room) self.now.here.flags role cursor.old) result cursor.new }
    {
        let begin = cursor.begin();
        let head = self.head(cursor, role, begin)?;
        let links = self.links(cursor, role.has_calls())?;
        let span = cursor.span_from(begin);
        Ok(G::chain(cursor.alloc(), span, head, links)?)
    }
}
