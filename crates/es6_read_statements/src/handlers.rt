//! The statement `try` (ECMA-262, 6th edition, 13.15).

ghost use Rattle.es6_cursor.specs.Readers.{inner};
ghost use Rattle.es6_cursor.specs.Reads.{ReadsAs};
ghost use Rattle.es6_read_parts.specs.Handed.{HasExpressions, HasStatements};
ghost use Rattle.es6_read_statements.specs.Enclosed.{enclosed_parameter};
ghost use Rattle.es6_reading.specs.Statements.{after_handler, catch_parameter, handler, only_finally, try_statement};

use crate::readers::Statements;
use es6_cursor::{Cursor, Flags, Halt, Nested, Stand, enter};
use es6_lexer::Punctuator;
use es6_makers::{MakesBindings, MakesCatches, MakesTries};
use es6_read_parts::{block, inner_target};

impl<
    G: MakesBindings,
    E: Fn(&mut Cursor, u16, Flags, Nested) -> Result<G::Reading, Halt>,
    S,
> Statements<'_, G, E, S> {
    #[tactic(auto, using(es6_cursor::proofs::Rules::groups), unfolding(es6_reading::specs::Statements::catch_parameter))]
    fn catch_parameter(&self, cursor: &mut Cursor) -> Result<G::Pattern, Halt>
        requires expressions { HasExpressions G.seen E.pre E.post self.now.here }
        ensures { ReadsAs G.seen_pattern (catch_parameter (inner self.now.here.room) self.now.here.flags cursor.old) result cursor.new }
    {
        let parameter = inner_target::<G, E>(
            cursor,
            self.here.room,
            self.here.flags.with_in(),
            self.here.expression,
        )?;
        cursor.expect_mark(Punctuator::RightParenthesis)?;
        Ok(parameter)
    }

    /// CatchParameter in its parentheses.
    #[tactic(auto, using(crate::proofs::Enclosed::in_parameter, crate::proofs::Enclosed::no_parameter))]
    fn enclosed_parameter(&self, cursor: &mut Cursor) -> Result<G::Pattern, Halt>
        requires expressions { HasExpressions G.seen E.pre E.post self.now.here }
        ensures { ReadsAs G.seen_pattern (enclosed_parameter (inner self.now.here.room) self.now.here.flags cursor.old) result cursor.new }
    {
        enter(cursor, self.here.room, Punctuator::LeftParenthesis)?;
        self.catch_parameter(cursor)
    }
}

impl<
    G: MakesCatches,
    E: Fn(&mut Cursor, u16, Flags, Nested) -> Result<G::Reading, Halt>,
    S: Fn(&mut Cursor, u16, Flags, Stand) -> Result<G::Statement, Halt>,
> Statements<'_, G, E, S> {
    #[tactic(auto, using(es6_cursor::proofs::Rules::groups), unfolding(es6_reading::specs::Statements::handler, crate::specs::Enclosed::enclosed_parameter))]
    fn handler(&self, cursor: &mut Cursor) -> Result<G::Catch, Halt>
        requires expressions { HasExpressions G.seen E.pre E.post self.now.here }
        requires statements { HasStatements G.seen_statement S.pre S.post self.now.here }
        ensures { ReadsAs G.seen_catch (handler (inner self.now.here.room) self.now.here.flags cursor.old) result cursor.new }
    {
        let begin = cursor.begin();
        cursor.expect_word(b"catch")?;
        let parameter = self.enclosed_parameter(cursor)?;
        let body = block::<G, S>(cursor, self.here.room, self.here.flags, self.here.statement)?;
        let span = cursor.span_from(begin);
        Ok(G::catch(cursor.alloc(), span, parameter, body)?)
    }
}

impl<
    G: MakesTries,
    E,
    S: Fn(&mut Cursor, u16, Flags, Stand) -> Result<G::Statement, Halt>,
> Statements<'_, G, E, S> {
    /// The finally behind a catch, if there is one.
    #[tactic(auto, using(es6_cursor::proofs::Rules::groups), unfolding(es6_reading::specs::Statements::after_handler))]
    fn after_handler(
        &self,
        cursor: &mut Cursor,
        begin: u32,
        tried: G::Block,
        catch: G::Catch,
    ) -> Result<G::Statement, Halt>
        requires statements { HasStatements G.seen_statement S.pre S.post self.now.here }
        ensures { ReadsAs G.seen_statement (after_handler (inner self.now.here.room) self.now.here.flags begin (G.seen_block tried) (G.seen_catch catch) cursor.old) result cursor.new }
    {
        if !cursor.take_word(b"finally") {
            return Ok(G::try_catch(cursor.span_from(begin), tried, catch));
        }
        let finally = block::<G, S>(cursor, self.here.room, self.here.flags, self.here.statement)?;
        let span = cursor.span_from(begin);
        Ok(G::try_catch_finally(span, tried, catch, finally))
    }

    /// The finally behind a block with no catch.
    #[tactic(auto, unfolding(es6_reading::specs::Statements::only_finally))]
    fn only_finally(
        &self,
        cursor: &mut Cursor,
        begin: u32,
        tried: G::Block,
    ) -> Result<G::Statement, Halt>
        requires statements { HasStatements G.seen_statement S.pre S.post self.now.here }
        ensures { ReadsAs G.seen_statement (only_finally (inner self.now.here.room) self.now.here.flags begin (G.seen_block tried) cursor.old) result cursor.new }
    {
        cursor.expect_word(b"finally")?;
        let finally = block::<G, S>(cursor, self.here.room, self.here.flags, self.here.statement)?;
        Ok(G::try_finally(cursor.span_from(begin), tried, finally))
    }
}

impl<
    G: MakesCatches,
    E: Fn(&mut Cursor, u16, Flags, Nested) -> Result<G::Reading, Halt>,
    S: Fn(&mut Cursor, u16, Flags, Stand) -> Result<G::Statement, Halt>,
> Statements<'_, G, E, S> {
    /// What follows the word `try`.
    #[tactic(auto, using(es6_cursor::proofs::Rules::groups), unfolding(es6_reading::specs::Statements::try_statement))]
    #[inline(never)]
    pub fn try_statement(&self, cursor: &mut Cursor, begin: u32) -> Result<G::Statement, Halt>
        requires expressions { HasExpressions G.seen E.pre E.post self.now.here }
        requires statements { HasStatements G.seen_statement S.pre S.post self.now.here }
        ensures { ReadsAs G.seen_statement (try_statement (inner self.now.here.room) self.now.here.flags begin cursor.old) result cursor.new }
    {
        let tried = block::<G, S>(cursor, self.here.room, self.here.flags, self.here.statement)?;
        if cursor.next_is_word(b"catch") {
            let catch = self.handler(cursor)?;
            return self.after_handler(cursor, begin, tried, catch);
        }
        self.only_finally(cursor, begin, tried)
    }
}
