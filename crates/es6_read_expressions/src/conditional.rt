//! Conditional expressions and arrow functions (ECMA-262, 6th edition, 12.13, 14.2).

ghost use Rattle.es6_cursor.specs.Readers.{inner, turns};
ghost use Rattle.es6_cursor.specs.Reads.{ReadsAs};
ghost use Rattle.es6_read_parts.specs.Handed.{HasExpressions, HasStatements};
ghost use Rattle.es6_read_expressions.specs.Branches.{after_parameters, arrow_with_block, arrow_with_value, other_branch};
ghost use Rattle.es6_reading.specs.Expressions.{arrow_body, arrow_if, before_arrow, branches, conditional, parameters_before};

use crate::readers::Expressions;
use es6_cursor::{Cursor, Flags, Halt, Nested, Stand};
use es6_lexer::Punctuator;
use es6_makers::{MakesArrows, MakesExpressions, MakesOperators, MakesReadings};
use es6_read_parts::inner_block;
use es6_read_primaries::Primaries;

impl<
    G: MakesReadings,
    E: Fn(&mut Cursor, u16, Flags, Nested) -> Result<G::Reading, Halt>,
    S,
> Expressions<'_, G, E, S> {
    /// The `:` of a conditional expression, and what follows it.
    #[tactic(auto, using(es6_cursor::proofs::Rules::groups), unfolding(crate::specs::Branches::other_branch))]
    fn other_branch(&self, cursor: &mut Cursor) -> Result<G::Reading, Halt>
        requires expressions { HasExpressions G.seen E.pre E.post self.now.here }
        ensures { ReadsAs G.seen (other_branch (inner self.now.here.room) self.now.here.flags cursor.old) result cursor.new }
    {
        cursor.expect_mark(Punctuator::Colon)?;
        (self.here.expression)(cursor, self.here.room, self.here.flags, Nested::Assignment)
    }
}

impl<
    G: MakesOperators,
    E: Fn(&mut Cursor, u16, Flags, Nested) -> Result<G::Reading, Halt>,
    S,
> Expressions<'_, G, E, S> {
    /// What follows the `?` of a conditional expression, which begins at the offset.
    #[tactic(auto, using(es6_cursor::proofs::Rules::groups, crate::proofs::Branches::branches_is))]
    fn branches(
        &self,
        cursor: &mut Cursor,
        begin: u32,
        test: G::Reading,
    ) -> Result<G::Reading, Halt>
        requires expressions { HasExpressions G.seen E.pre E.post self.now.here }
        ensures { ReadsAs G.seen (branches (inner self.now.here.room) self.now.here.flags begin (G.seen test).value cursor.old) result cursor.new }
    {
        let yes = Primaries { here: self.here }.assignment_within(cursor)?;
        let no = self.other_branch(cursor)?;
        let span = cursor.span_from(begin);
        Ok(G::conditional(cursor.alloc(), span, test, yes, no)?)
    }
}

impl<
    G: MakesExpressions,
    E: Fn(&mut Cursor, u16, Flags, Nested) -> Result<G::Reading, Halt>,
    S: Fn(&mut Cursor, u16, Flags, Stand) -> Result<G::Statement, Halt>,
> Expressions<'_, G, E, S> {
    /// ConditionalExpression (12.13).
    #[tactic(auto, using(es6_cursor::proofs::Rules::groups), unfolding(es6_reading::specs::Expressions::conditional))]
    pub fn conditional(&self, cursor: &mut Cursor) -> Result<G::Reading, Halt>
        requires expressions { HasExpressions G.seen E.pre E.post self.now.here }
        requires statements { HasStatements G.seen_statement S.pre S.post self.now.here }
        ensures { ReadsAs G.seen (conditional (inner self.now.here.room) self.now.here.flags cursor.old) result cursor.new }
    {
        let begin = cursor.begin();
        let test = self.binary(cursor)?;
        if !cursor.take_mark(Punctuator::Question) {
            return Ok(test);
        }
        self.branches(cursor, begin, test)
    }
}

impl<
    G: MakesArrows,
    E,
    S: Fn(&mut Cursor, u16, Flags, Stand) -> Result<G::Statement, Halt>,
> Expressions<'_, G, E, S> {
    /// The block after `=>`, with the parameters before it, of which the first begins at the offset.
    #[tactic(auto, using(es6_cursor::proofs::Rules::groups), unfolding(crate::specs::Branches::arrow_with_block))]
    fn arrow_with_block(
        &self,
        cursor: &mut Cursor,
        begin: u32,
        parameters: G::Parameters,
    ) -> Result<G::Reading, Halt>
        requires statements { HasStatements G.seen_statement S.pre S.post self.now.here }
        ensures { ReadsAs G.seen (arrow_with_block (inner self.now.here.room) begin (G.seen_parameters parameters) cursor.old) result cursor.new }
    {
        let block = inner_block::<G, S>(
            cursor,
            self.here.room,
            Flags::of_function(false),
            self.here.statement,
        )?;
        let span = cursor.span_from(begin);
        Ok(G::arrow_with_block(cursor.alloc(), span, parameters, block)?)
    }
}

impl<
    G: MakesArrows,
    E: Fn(&mut Cursor, u16, Flags, Nested) -> Result<G::Reading, Halt>,
    S,
> Expressions<'_, G, E, S> {
    /// The expression after `=>`, in the same way.
    #[tactic(auto, using(es6_cursor::proofs::Rules::groups), unfolding(crate::specs::Branches::arrow_with_value))]
    fn arrow_with_value(
        &self,
        cursor: &mut Cursor,
        begin: u32,
        parameters: G::Parameters,
    ) -> Result<G::Reading, Halt>
        requires expressions { HasExpressions G.seen E.pre E.post self.now.here }
        ensures { ReadsAs G.seen (arrow_with_value (inner self.now.here.room) self.now.here.flags begin (G.seen_parameters parameters) cursor.old) result cursor.new }
    {
        let value = (self.here.expression)(
            cursor,
            self.here.room,
            self.here.flags.of_arrow(),
            Nested::Assignment,
        )?;
        let span = cursor.span_from(begin);
        Ok(G::arrow_with_value(cursor.alloc(), span, parameters, value)?)
    }
}

impl<
    G: MakesArrows,
    E: Fn(&mut Cursor, u16, Flags, Nested) -> Result<G::Reading, Halt>,
    S: Fn(&mut Cursor, u16, Flags, Stand) -> Result<G::Statement, Halt>,
> Expressions<'_, G, E, S> {
    /// What follows `=>`, with the parameters before it, of which the first begins at the offset.
    #[tactic(auto, using(es6_cursor::proofs::Rules::groups), unfolding(es6_reading::specs::Expressions::arrow_body, crate::specs::Branches::arrow_with_block, crate::specs::Branches::arrow_with_value))]
    fn arrow_body(
        &self,
        cursor: &mut Cursor,
        begin: u32,
        parameters: G::Parameters,
    ) -> Result<G::Reading, Halt>
        requires expressions { HasExpressions G.seen E.pre E.post self.now.here }
        requires statements { HasStatements G.seen_statement S.pre S.post self.now.here }
        ensures { ReadsAs G.seen (arrow_body (inner self.now.here.room) self.now.here.flags begin (G.seen_parameters parameters) cursor.old) result cursor.new }
    {
        if cursor.next_is_mark(Punctuator::LeftBrace) {
            return self.arrow_with_block(cursor, begin, parameters);
        }
        self.arrow_with_value(cursor, begin, parameters)
    }
}

/// What stands before `=>` and is no parameters ends there, if it is an expression by itself.
#[tactic(auto, unfolding(es6_reading::specs::Parser::refused))]
fn before_arrow<G: MakesReadings>(cursor: &Cursor, head: G::Reading) -> Result<G::Reading, Halt>
    ensures { ReadsAs G.seen (before_arrow (G.seen head) cursor.now) result cursor.now }
{
    if G::is_covered(&head) {
        return Err(Halt::Stopped(cursor.refused()));
    }
    Ok(head)
}

impl<
    G: MakesArrows,
    E: Fn(&mut Cursor, u16, Flags, Nested) -> Result<G::Reading, Halt>,
    S: Fn(&mut Cursor, u16, Flags, Stand) -> Result<G::Statement, Halt>,
> Expressions<'_, G, E, S> {
    /// What follows the parameters of an arrow function, of which the first begins at the offset.
    #[tactic(auto, using(es6_cursor::proofs::Rules::groups, es6_cursor::proofs::Choices::on_arrow, es6_cursor::proofs::Choices::off_arrow), unfolding(es6_reading::specs::Parser::refused))]
    fn after_parameters(
        &self,
        cursor: &mut Cursor,
        begin: u32,
        parameters: G::Parameters,
    ) -> Result<G::Reading, Halt>
        requires expressions { HasExpressions G.seen E.pre E.post self.now.here }
        requires statements { HasStatements G.seen_statement S.pre S.post self.now.here }
        ensures { ReadsAs G.seen (after_parameters (inner self.now.here.room) self.now.here.flags begin (G.seen_parameters parameters) cursor.old) result cursor.new }
    {
        if !cursor.take_arrow() {
            return Err(Halt::Stopped(cursor.refused()));
        }
        self.arrow_body(cursor, begin, parameters)
    }

    /// An arrow function, with what is read before its `=>`, which begins at the offset; or no more than that, where it is no
    /// parameters.
    #[tactic(auto, using(es6_cursor::proofs::Rules::groups, crate::proofs::Arrows::arrow_is, crate::proofs::Arrows::no_arrow_is))]
    pub fn arrow(
        &self,
        cursor: &mut Cursor,
        begin: u32,
        head: G::Reading,
    ) -> Result<G::Reading, Halt>
        requires expressions { HasExpressions G.seen E.pre E.post self.now.here }
        requires statements { HasStatements G.seen_statement S.pre S.post self.now.here }
        ensures { ReadsAs G.seen (arrow_if (inner self.now.here.room) self.now.here.flags begin (G.seen head) (parameters_before turns (G.seen head).shape (G.seen head).value) cursor.old) result cursor.new }
    {
        if G::is_misfit(&head) {
            return before_arrow::<G>(cursor, head);
        }
        let parameters = G::arrow_parameters(cursor, head)?;
        self.after_parameters(cursor, begin, parameters)
    }
}
