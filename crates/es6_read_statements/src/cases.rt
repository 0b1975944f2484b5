//! The statement `switch` (ECMA-262, 6th edition, 13.12).

ghost use Rattle.es6_cursor.specs.Readers.{inner};
ghost use Rattle.es6_cursor.specs.Reads.{ReadsAs};
ghost use Rattle.es6_read_parts.specs.Handed.{HasExpressions, HasStatements};
ghost use Rattle.es6_read_statements.specs.Enclosed.{case_block, clause_of, one_clause};
ghost use Rattle.es6_reading.specs.Statements.{case_clause, cases, default_clause, in_case, switch_statement};
ghost use Rattle.std.specs.Prelude.{true};

use crate::readers::Statements;
use es6_cursor::{Cursor, Flags, Halt, Nested, Stand, Stop, TURNS, enter};
use es6_lexer::Punctuator;
use es6_makers::{MakesCases, MakesStatementLists};

impl<
    G: MakesStatementLists,
    E,
    S: Fn(&mut Cursor, u16, Flags, Stand) -> Result<G::Statement, Halt>,
> Statements<'_, G, E, S> {
    /// The statements of a clause.
    #[tactic(auto, using(es6_cursor::proofs::Rules::lists, crate::proofs::CaseLists::in_case_turn, crate::proofs::CaseLists::in_case_more, crate::proofs::CaseLists::in_case_end), unfolding(es6_reading::specs::Statements::in_case))]
    fn in_case(&self, cursor: &mut Cursor) -> Result<G::Statements, Halt>
        requires statements { HasStatements G.seen_statement S.pre S.post self.now.here }
        ensures { ReadsAs G.seen_statements (in_case (inner self.now.here.room) self.now.here.flags (inner self.now.here.room).fuel cursor.old) result cursor.new }
    {
        let mut list = G::no_statements(cursor.alloc());
        for turn in 0..TURNS {
            if cursor.next_ends_case() {
                return Ok(list);
            }
            let statement = (self.here.statement)(
                cursor,
                self.here.room,
                self.here.flags,
                Stand::Listed,
            )?;
            G::push_statement(cursor.alloc(), &mut list, statement)?;
        }
        Err(Halt::Stopped(Stop::Endless))
    }
}

impl<
    G: MakesCases,
    E: Fn(&mut Cursor, u16, Flags, Nested) -> Result<G::Reading, Halt>,
    S: Fn(&mut Cursor, u16, Flags, Stand) -> Result<G::Statement, Halt>,
> Statements<'_, G, E, S> {
    /// What follows the word `case`.
    #[tactic(auto, using(es6_cursor::proofs::Rules::groups), unfolding(es6_reading::specs::Statements::case_clause))]
    fn case_clause(&self, cursor: &mut Cursor, begin: u32) -> Result<G::Case, Halt>
        requires expressions { HasExpressions G.seen E.pre E.post self.now.here }
        requires statements { HasStatements G.seen_statement S.pre S.post self.now.here }
        ensures { ReadsAs G.seen_case (case_clause (inner self.now.here.room) self.now.here.flags begin cursor.old) result cursor.new }
    {
        let test = (self.here.expression)(
            cursor,
            self.here.room,
            self.here.flags.with_in(),
            Nested::Sequence,
        )?;
        cursor.expect_mark(Punctuator::Colon)?;
        let body = self.in_case(cursor)?;
        Ok(G::case(cursor.span_from(begin), G::present(test), body))
    }
}

impl<
    G: MakesCases,
    E,
    S: Fn(&mut Cursor, u16, Flags, Stand) -> Result<G::Statement, Halt>,
> Statements<'_, G, E, S> {
    /// What follows the word `default`.
    #[tactic(auto, using(es6_cursor::proofs::Rules::groups), unfolding(es6_reading::specs::Statements::default_clause))]
    fn default_clause(&self, cursor: &mut Cursor, begin: u32) -> Result<G::Case, Halt>
        requires statements { HasStatements G.seen_statement S.pre S.post self.now.here }
        ensures { ReadsAs G.seen_case (default_clause (inner self.now.here.room) self.now.here.flags begin cursor.old) result cursor.new }
    {
        cursor.expect_mark(Punctuator::Colon)?;
        let body = self.in_case(cursor)?;
        Ok(G::case(cursor.span_from(begin), G::absent(), body))
    }
}

/// A clause, and whether a default clause may still come.
#[derive(Drop)]
pub struct Clause<C: Drop> {
    pub case: C,
    pub may_default: bool,
}

impl<
    G: MakesCases,
    E: Fn(&mut Cursor, u16, Flags, Nested) -> Result<G::Reading, Halt>,
    S: Fn(&mut Cursor, u16, Flags, Stand) -> Result<G::Statement, Halt>,
> Statements<'_, G, E, S> {
    /// A clause, which begins at the offset. It may be the default clause if there was none before.
    #[tactic(auto, using(es6_cursor::proofs::Rules::groups), unfolding(crate::specs::Enclosed::one_clause, es6_reading::specs::Parser::refused))]
    fn one_clause(
        &self,
        cursor: &mut Cursor,
        may_default: bool,
        begin: u32,
    ) -> Result<Clause<G::Case>, Halt>
        requires expressions { HasExpressions G.seen E.pre E.post self.now.here }
        requires statements { HasStatements G.seen_statement S.pre S.post self.now.here }
        ensures { ReadsAs (clause_of G.seen_case) (one_clause (inner self.now.here.room) self.now.here.flags may_default begin cursor.old) result cursor.new }
    {
        if cursor.take_word(b"case") {
            let case = self.case_clause(cursor, begin)?;
            return Ok(Clause { case, may_default });
        }
        if !may_default {
            return Err(Halt::Stopped(cursor.refused()));
        }
        if !cursor.take_word(b"default") {
            return Err(Halt::Stopped(cursor.refused()));
        }
        let case = self.default_clause(cursor, begin)?;
        Ok(Clause {
            case,
            may_default: false,
        })
    }

    /// The clauses after the opening brace, of which one may be the default, and the closing brace.
    #[tactic(auto, using(es6_cursor::proofs::Rules::lists, crate::proofs::CaseLists::cases_turns))]
    fn cases(&self, cursor: &mut Cursor) -> Result<G::Cases, Halt>
        requires expressions { HasExpressions G.seen E.pre E.post self.now.here }
        requires statements { HasStatements G.seen_statement S.pre S.post self.now.here }
        ensures { ReadsAs G.seen_cases (cases (inner self.now.here.room) self.now.here.flags true (inner self.now.here.room).fuel cursor.old) result cursor.new }
    {
        let mut list = G::no_cases(cursor.alloc());
        let mut may_default = true;
        for turn in 0..TURNS {
            let begin = cursor.begin();
            if cursor.take_mark(Punctuator::RightBrace) {
                return Ok(list);
            }
            let clause = self.one_clause(cursor, may_default, begin)?;
            may_default = clause.may_default;
            G::push_case(&mut list, clause.case)?;
        }
        Err(Halt::Stopped(Stop::Endless))
    }

    /// CaseBlock.
    #[tactic(auto, using(crate::proofs::Enclosed::in_block, crate::proofs::Enclosed::no_block))]
    fn case_block(&self, cursor: &mut Cursor) -> Result<G::Cases, Halt>
        requires expressions { HasExpressions G.seen E.pre E.post self.now.here }
        requires statements { HasStatements G.seen_statement S.pre S.post self.now.here }
        ensures { ReadsAs G.seen_cases (case_block (inner self.now.here.room) self.now.here.flags cursor.old) result cursor.new }
    {
        enter(cursor, self.here.room, Punctuator::LeftBrace)?;
        self.cases(cursor)
    }

    /// What follows the word `switch`.
    #[tactic(auto, unfolding(es6_reading::specs::Statements::switch_statement, crate::specs::Enclosed::case_block))]
    #[inline(never)]
    pub fn switch_statement(&self, cursor: &mut Cursor, begin: u32) -> Result<G::Statement, Halt>
        requires expressions { HasExpressions G.seen E.pre E.post self.now.here }
        requires statements { HasStatements G.seen_statement S.pre S.post self.now.here }
        ensures { ReadsAs G.seen_statement (switch_statement (inner self.now.here.room) self.now.here.flags begin cursor.old) result cursor.new }
    {
        let subject = self.parenthesized(cursor)?;
        let cases = self.case_block(cursor)?;
        Ok(G::switch(cursor.span_from(begin), subject, cases))
    }
}
