//! Assignments, `yield` and sequences (ECMA-262, 6th edition, 12.14, 12.15, 14.4).

ghost use Rattle.es6_cursor.specs.Readers.{inner};
ghost use Rattle.es6_cursor.specs.Reads.{ReadsAs};
ghost use Rattle.es6_read_parts.specs.Handed.{HasExpressions, HasStatements};
ghost use Rattle.es6_read_expressions.specs.Yields.{delegated, yielded};
ghost use Rattle.es6_reading.specs.Expressions.{after_conditional, after_yield, assigned_with, assignment, more_parts, parts, sequence, without_yield};

use crate::readers::Expressions;
use es6_ast::AssignOperator;
use es6_cursor::{Cursor, Flags, Halt, Nested, Stand, Stop, TURNS};
use es6_lexer::Punctuator;
use es6_makers::{MakesAssignments, MakesExpressions, MakesOperators, MakesTargets};

impl<
    G: MakesTargets,
    E: Fn(&mut Cursor, u16, Flags, Nested) -> Result<G::Reading, Halt>,
    S,
> Expressions<'_, G, E, S> {
    /// What follows an assignment operator, whose target begins at the offset.
    #[tactic(auto, using(es6_cursor::proofs::Rules::groups, es6_cursor::proofs::Rooms::fuel_turns), unfolding(es6_reading::specs::Expressions::assigned_with))]
    fn assigned_with(
        &self,
        cursor: &mut Cursor,
        begin: u32,
        target: G::Reading,
        operator: AssignOperator,
    ) -> Result<G::Reading, Halt>
        requires expressions { HasExpressions G.seen E.pre E.post self.now.here }
        ensures { ReadsAs G.seen (assigned_with (inner self.now.here.room) self.now.here.flags begin (G.seen target).value operator cursor.old) result cursor.new }
    {
        let target = G::assigned_target(cursor, operator, target)?;
        let value = (self.here.expression)(
            cursor,
            self.here.room,
            self.here.flags,
            Nested::Assignment,
        )?;
        let span = cursor.span_from(begin);
        Ok(G::assign(cursor.alloc(), span, operator, target, value)?)
    }
}

impl<
    G: MakesAssignments,
    E: Fn(&mut Cursor, u16, Flags, Nested) -> Result<G::Reading, Halt>,
    S: Fn(&mut Cursor, u16, Flags, Stand) -> Result<G::Statement, Halt>,
> Expressions<'_, G, E, S> {
    /// An arrow function, an assignment, or nothing more than the expression, which begins at the offset.
    #[tactic(auto, using(es6_cursor::proofs::Rules::groups, es6_cursor::proofs::Rooms::fuel_turns), unfolding(es6_reading::specs::Expressions::after_conditional))]
    fn after_conditional(
        &self,
        cursor: &mut Cursor,
        begin: u32,
        head: G::Reading,
    ) -> Result<G::Reading, Halt>
        requires expressions { HasExpressions G.seen E.pre E.post self.now.here }
        requires statements { HasStatements G.seen_statement S.pre S.post self.now.here }
        ensures { ReadsAs G.seen (after_conditional (inner self.now.here.room) self.now.here.flags begin (G.seen head) cursor.old) result cursor.new }
    {
        if cursor.next_is_arrow() {
            return self.arrow(cursor, begin, head);
        }
        if !G::is_left(&head) {
            return Ok(head);
        }
        let Some(operator) = cursor.take_assign() else {
            return Ok(head);
        };
        self.assigned_with(cursor, begin, head, operator)
    }
}

impl<
    G: MakesOperators,
    E: Fn(&mut Cursor, u16, Flags, Nested) -> Result<G::Reading, Halt>,
    S,
> Expressions<'_, G, E, S> {
    /// What follows the `*` of a `yield`, which begins at the offset (14.4).
    #[tactic(auto, using(es6_cursor::proofs::Rules::groups), unfolding(crate::specs::Yields::delegated))]
    fn delegated(&self, cursor: &mut Cursor, begin: u32) -> Result<G::Reading, Halt>
        requires expressions { HasExpressions G.seen E.pre E.post self.now.here }
        ensures { ReadsAs G.seen (delegated (inner self.now.here.room) self.now.here.flags begin cursor.old) result cursor.new }
    {
        let value = (self.here.expression)(
            cursor,
            self.here.room,
            self.here.flags,
            Nested::Assignment,
        )?;
        let span = cursor.span_from(begin);
        Ok(G::delegate(cursor.alloc(), span, value)?)
    }

    /// The value of a `yield`, which begins at the offset (14.4).
    #[tactic(auto, using(es6_cursor::proofs::Rules::groups), unfolding(crate::specs::Yields::yielded))]
    fn yielded(&self, cursor: &mut Cursor, begin: u32) -> Result<G::Reading, Halt>
        requires expressions { HasExpressions G.seen E.pre E.post self.now.here }
        ensures { ReadsAs G.seen (yielded (inner self.now.here.room) self.now.here.flags begin cursor.old) result cursor.new }
    {
        let value = (self.here.expression)(
            cursor,
            self.here.room,
            self.here.flags,
            Nested::Assignment,
        )?;
        let span = cursor.span_from(begin);
        Ok(G::yielded(cursor.alloc(), span, value)?)
    }

    /// What follows `yield`, which begins at the offset (14.4).
    #[tactic(auto, using(es6_cursor::proofs::Rules::groups, es6_cursor::proofs::Choices::on_star, es6_cursor::proofs::Choices::off_star), unfolding(es6_reading::specs::Expressions::after_yield, crate::specs::Yields::delegated, crate::specs::Yields::yielded))]
    fn after_yield(&self, cursor: &mut Cursor, begin: u32) -> Result<G::Reading, Halt>
        requires expressions { HasExpressions G.seen E.pre E.post self.now.here }
        ensures { ReadsAs G.seen (after_yield (inner self.now.here.room) self.now.here.flags begin cursor.old) result cursor.new }
    {
        if cursor.take_star_on_line() {
            return self.delegated(cursor, begin);
        }
        if !cursor.next_begins_yielded() {
            return Ok(G::yield_alone(cursor.span_from(begin)));
        }
        self.yielded(cursor, begin)
    }
}

impl<
    G: MakesExpressions,
    E: Fn(&mut Cursor, u16, Flags, Nested) -> Result<G::Reading, Halt>,
    S: Fn(&mut Cursor, u16, Flags, Stand) -> Result<G::Statement, Halt>,
> Expressions<'_, G, E, S> {
    #[tactic(auto, using(es6_cursor::proofs::Rules::groups), unfolding(es6_reading::specs::Expressions::without_yield))]
    fn without_yield(&self, cursor: &mut Cursor, begin: u32) -> Result<G::Reading, Halt>
        requires expressions { HasExpressions G.seen E.pre E.post self.now.here }
        requires statements { HasStatements G.seen_statement S.pre S.post self.now.here }
        ensures { ReadsAs G.seen (without_yield (inner self.now.here.room) self.now.here.flags begin cursor.old) result cursor.new }
    {
        let head = self.conditional(cursor)?;
        self.after_conditional(cursor, begin, head)
    }

    /// AssignmentExpression (12.14).
    #[tactic(auto, using(es6_cursor::proofs::Rules::groups), unfolding(es6_reading::specs::Expressions::assignment))]
    pub fn assignment(&self, cursor: &mut Cursor) -> Result<G::Reading, Halt>
        requires expressions { HasExpressions G.seen E.pre E.post self.now.here }
        requires statements { HasStatements G.seen_statement S.pre S.post self.now.here }
        ensures { ReadsAs G.seen (assignment (inner self.now.here.room) self.now.here.flags cursor.old) result cursor.new }
    {
        let begin = cursor.begin();
        if !self.here.flags.has_yield {
            return self.without_yield(cursor, begin);
        }
        if cursor.take_word(b"yield") {
            return self.after_yield(cursor, begin);
        }
        self.without_yield(cursor, begin)
    }

    #[tactic(auto, using(es6_cursor::proofs::Rules::lists, crate::proofs::Sequences::parts_turn, crate::proofs::Sequences::parts_more), unfolding(es6_reading::specs::Expressions::parts))]
    fn parts(&self, cursor: &mut Cursor) -> Result<G::Expressions, Halt>
        requires expressions { HasExpressions G.seen E.pre E.post self.now.here }
        requires statements { HasStatements G.seen_statement S.pre S.post self.now.here }
        ensures { ReadsAs G.seen_expressions (parts (inner self.now.here.room) self.now.here.flags (inner self.now.here.room).fuel cursor.old) result cursor.new }
    {
        let mut list = G::no_expressions(cursor.alloc());
        for turn in 0..TURNS {
            let part = self.assignment(cursor)?;
            G::push_expression(&mut list, part)?;
            if !cursor.take_mark(Punctuator::Comma) {
                return Ok(list);
            }
        }
        Err(Halt::Stopped(Stop::Endless))
    }

    /// What follows the first comma of an expression that begins at the offset.
    #[tactic(auto, using(es6_cursor::proofs::Rules::groups), unfolding(es6_reading::specs::Expressions::more_parts))]
    fn more_parts(
        &self,
        cursor: &mut Cursor,
        begin: u32,
        first: G::Reading,
    ) -> Result<G::Reading, Halt>
        requires expressions { HasExpressions G.seen E.pre E.post self.now.here }
        requires statements { HasStatements G.seen_statement S.pre S.post self.now.here }
        ensures { ReadsAs G.seen (more_parts (inner self.now.here.room) self.now.here.flags begin (G.seen first).value cursor.old) result cursor.new }
    {
        let rest = self.parts(cursor)?;
        let span = cursor.span_from(begin);
        Ok(G::sequence(cursor.alloc(), span, first, rest)?)
    }

    /// Expression (12.15).
    #[tactic(auto, using(es6_cursor::proofs::Rules::groups), unfolding(es6_reading::specs::Expressions::sequence))]
    pub fn sequence(&self, cursor: &mut Cursor) -> Result<G::Reading, Halt>
        requires expressions { HasExpressions G.seen E.pre E.post self.now.here }
        requires statements { HasStatements G.seen_statement S.pre S.post self.now.here }
        ensures { ReadsAs G.seen (sequence (inner self.now.here.room) self.now.here.flags cursor.old) result cursor.new }
    {
        let begin = cursor.begin();
        let first = self.assignment(cursor)?;
        if !cursor.take_mark(Punctuator::Comma) {
            return Ok(first);
        }
        self.more_parts(cursor, begin, first)
    }
}
