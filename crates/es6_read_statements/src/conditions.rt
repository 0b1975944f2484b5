//! Conditions, and what statements hold (ECMA-262, 6th edition, 13.6).

ghost use Rattle.es6_cursor.specs.Readers.{inner};
ghost use Rattle.es6_cursor.specs.Reads.{ReadsAs};
ghost use Rattle.es6_read_parts.specs.Handed.{HasExpressions, HasStatements};
ghost use Rattle.es6_read_statements.specs.Enclosed.{alternative_of, closed_expression, one_alternative};
ghost use Rattle.es6_read_statements.specs.Variables.{otherwise_of, value_of};
ghost use Rattle.es6_ast.specs.declared.settings.Stand.TheVariants.{Under};
ghost use Rattle.es6_reading.specs.Statements.{condition, if_statement, otherwise, parenthesized};

use crate::readers::Statements;
use es6_cursor::{Cursor, Flags, Halt, Nested, Stand, Stop, TURNS, enter};
use es6_lexer::Punctuator;
use es6_makers::{MakesConditions, MakesReadings, MakesSimpleStatements};

impl<
    G: MakesSimpleStatements,
    E,
    S: Fn(&mut Cursor, u16, Flags, Stand) -> Result<G::Statement, Halt>,
> Statements<'_, G, E, S> {
    /// The statement under another.
    pub fn under(&self, cursor: &mut Cursor) -> Result<G::Statement, Halt>
        requires statements { HasStatements G.seen_statement S.pre S.post self.now.here }
        ensures { ReadsAs G.seen_statement ((inner self.now.here.room).statement self.now.here.flags Under cursor.old) result cursor.new }
    {
        (self.here.statement)(cursor, self.here.room, self.here.flags, Stand::Under)
    }
}

impl<
    G: MakesReadings,
    E: Fn(&mut Cursor, u16, Flags, Nested) -> Result<G::Reading, Halt>,
    S,
> Statements<'_, G, E, S> {
    /// An expression behind an opening parenthesis, and the closing one.
    #[tactic(auto, using(es6_cursor::proofs::Rules::groups), unfolding(crate::specs::Enclosed::closed_expression))]
    fn closed_expression(&self, cursor: &mut Cursor) -> Result<G::Reading, Halt>
        requires expressions { HasExpressions G.seen E.pre E.post self.now.here }
        ensures { ReadsAs (value_of G.seen) (closed_expression (inner self.now.here.room) self.now.here.flags cursor.old) result cursor.new }
    {
        let value = (self.here.expression)(
            cursor,
            self.here.room,
            self.here.flags.with_in(),
            Nested::Sequence,
        )?;
        cursor.expect_mark(Punctuator::RightParenthesis)?;
        Ok(value)
    }

    /// An expression in parentheses.
    #[tactic(auto, using(crate::proofs::Enclosed::in_parentheses, crate::proofs::Enclosed::no_parentheses))]
    pub fn parenthesized(&self, cursor: &mut Cursor) -> Result<G::Reading, Halt>
        requires expressions { HasExpressions G.seen E.pre E.post self.now.here }
        ensures { ReadsAs (value_of G.seen) (parenthesized (inner self.now.here.room) self.now.here.flags cursor.old) result cursor.new }
    {
        enter(cursor, self.here.room, Punctuator::LeftParenthesis)?;
        self.closed_expression(cursor)
    }
}

impl<
    G: MakesConditions,
    E: Fn(&mut Cursor, u16, Flags, Nested) -> Result<G::Reading, Halt>,
    S: Fn(&mut Cursor, u16, Flags, Stand) -> Result<G::Statement, Halt>,
> Statements<'_, G, E, S> {
    /// From `if` to the end of the statement under it.
    #[tactic(auto, using(es6_cursor::proofs::Rules::groups), unfolding(es6_reading::specs::Statements::condition))]
    fn condition(&self, cursor: &mut Cursor) -> Result<G::Condition, Halt>
        requires expressions { HasExpressions G.seen E.pre E.post self.now.here }
        requires statements { HasStatements G.seen_statement S.pre S.post self.now.here }
        ensures { ReadsAs G.seen_condition (condition (inner self.now.here.room) self.now.here.flags cursor.old) result cursor.new }
    {
        let begin = cursor.begin();
        cursor.expect_word(b"if")?;
        let test = self.parenthesized(cursor)?;
        let body = self.under(cursor)?;
        let span = cursor.span_from(begin);
        Ok(G::condition(cursor.alloc(), span, test, body)?)
    }
}

/// What follows a condition: a condition more behind `else`, the statement under the last `else`, or no `else`.
#[derive(Drop)]
pub enum Alternative<C: Drop, T: Drop> {
    More(C),
    Last(T),
    Nothing,
}

impl<
    G: MakesConditions,
    E: Fn(&mut Cursor, u16, Flags, Nested) -> Result<G::Reading, Halt>,
    S: Fn(&mut Cursor, u16, Flags, Stand) -> Result<G::Statement, Halt>,
> Statements<'_, G, E, S> {
    #[tactic(auto, using(es6_cursor::proofs::Rules::groups), unfolding(crate::specs::Enclosed::one_alternative))]
    fn one_alternative(
        &self,
        cursor: &mut Cursor,
    ) -> Result<Alternative<G::Condition, G::Statement>, Halt>
        requires expressions { HasExpressions G.seen E.pre E.post self.now.here }
        requires statements { HasStatements G.seen_statement S.pre S.post self.now.here }
        ensures { ReadsAs (alternative_of G.seen_condition G.seen_statement) (one_alternative (inner self.now.here.room) self.now.here.flags cursor.old) result cursor.new }
    {
        if !cursor.take_word(b"else") {
            return Ok(Alternative::Nothing);
        }
        if !cursor.next_is_word(b"if") {
            let last = self.under(cursor)?;
            return Ok(Alternative::Last(last));
        }
        let more = self.condition(cursor)?;
        Ok(Alternative::More(more))
    }
}

/// What follows the first condition of a chain: each `else if`, and the statement under the last `else`.
#[derive(Drop)]
pub struct Alternatives<C: Drop, T: Drop> {
    pub more: C,
    pub last: Option<T>,
}

impl<
    G: MakesConditions,
    E: Fn(&mut Cursor, u16, Flags, Nested) -> Result<G::Reading, Halt>,
    S: Fn(&mut Cursor, u16, Flags, Stand) -> Result<G::Statement, Halt>,
> Statements<'_, G, E, S> {
    /// Each `else` behind a condition.
    #[tactic(auto, using(es6_cursor::proofs::Rules::lists, crate::proofs::Alternatives::otherwise_turns))]
    fn otherwise(
        &self,
        cursor: &mut Cursor,
    ) -> Result<Alternatives<G::Conditions, G::Statement>, Halt>
        requires expressions { HasExpressions G.seen E.pre E.post self.now.here }
        requires statements { HasStatements G.seen_statement S.pre S.post self.now.here }
        ensures { ReadsAs (otherwise_of G.seen_conditions G.seen_statement) (otherwise (inner self.now.here.room) self.now.here.flags (inner self.now.here.room).fuel cursor.old) result cursor.new }
    {
        let mut more = G::no_conditions(cursor.alloc());
        for turn in 0..TURNS {
            match self.one_alternative(cursor)? {
                Alternative::More(condition) => G::push_condition(&mut more, condition)?,
                Alternative::Last(last) => {
                    return Ok(Alternatives {
                        more,
                        last: Some(last),
                    });
                }
                Alternative::Nothing => return Ok(Alternatives { more, last: None }),
            }
        }
        Err(Halt::Stopped(Stop::Endless))
    }

    /// An if statement, which begins at the offset.
    #[tactic(auto, unfolding(es6_reading::specs::Statements::if_statement))]
    #[inline(never)]
    pub fn if_statement(&self, cursor: &mut Cursor, begin: u32) -> Result<G::Statement, Halt>
        requires expressions { HasExpressions G.seen E.pre E.post self.now.here }
        requires statements { HasStatements G.seen_statement S.pre S.post self.now.here }
        ensures { ReadsAs G.seen_statement (if_statement (inner self.now.here.room) self.now.here.flags begin cursor.old) result cursor.new }
    {
        let first = self.condition(cursor)?;
        let Alternatives { more, last } = self.otherwise(cursor)?;
        let span = cursor.span_from(begin);
        match last {
            Some(last) => Ok(G::if_else(cursor.alloc(), span, first, more, last)?),
            None => Ok(G::if_statement(span, first, more)),
        }
    }
}
