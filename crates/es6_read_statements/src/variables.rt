//! Variables (ECMA-262, 6th edition, 13.3).

ghost use Rattle.es6_cursor.specs.Readers.{inner};
ghost use Rattle.es6_cursor.specs.Reads.{ReadsAs};
ghost use Rattle.es6_read_parts.specs.Handed.{HasExpressions};
ghost use Rattle.es6_read_statements.specs.Variables.{whole_variable};
ghost use Rattle.es6_reading.specs.Parts.{initialized};
ghost use Rattle.es6_reading.specs.Statements.{one_variable, variables, variables_statement};

use crate::readers::Statements;
use es6_ast::VariableKind;
use es6_cursor::{Cursor, Flags, Halt, Nested, Stop, TURNS};
use es6_lexer::Punctuator;
use es6_makers::{MakesBindings, MakesParts, MakesVariables};
use es6_read_parts::{initialized, inner_variable};

/// A variable that was read: a pattern has an initializer.
#[tactic(auto, using(es6_cursor::proofs::Rules::groups), unfolding(es6_reading::specs::Parser::refused))]
fn whole_variable<G: MakesParts>(cursor: &Cursor, variable: G::Part) -> Result<G::Part, Halt>
    ensures { ReadsAs G.seen_part (whole_variable (G.seen_part variable) cursor.now) result cursor.now }
{
    if G::is_whole(&variable) {
        Ok(variable)
    } else {
        Err(Halt::Stopped(cursor.refused()))
    }
}

impl<
    G: MakesBindings,
    E: Fn(&mut Cursor, u16, Flags, Nested) -> Result<G::Reading, Halt>,
    S,
> Statements<'_, G, E, S> {
    /// A variable of a statement.
    #[tactic(auto, using(es6_cursor::proofs::Rules::groups), unfolding(es6_reading::specs::Statements::one_variable))]
    fn declared_variable(&self, cursor: &mut Cursor) -> Result<G::Part, Halt>
        requires expressions { HasExpressions G.seen E.pre E.post self.now.here }
        ensures { ReadsAs G.seen_part (one_variable (initialized (inner self.now.here.room) self.now.here.flags self.now.here.flags) cursor.old) result cursor.new }
    {
        let variable = initialized::<G, E>(
            cursor,
            self.here.room,
            self.here.flags,
            self.here.flags,
            self.here.expression,
        )?;
        whole_variable::<G>(cursor, variable)
    }

    /// A variable of a for header.
    #[tactic(auto, using(es6_cursor::proofs::Rules::groups), unfolding(es6_reading::specs::Statements::one_variable))]
    fn for_variable(&self, cursor: &mut Cursor) -> Result<G::Part, Halt>
        requires expressions { HasExpressions G.seen E.pre E.post self.now.here }
        ensures { ReadsAs G.seen_part (one_variable ((inner self.now.here.room).variable self.now.here.flags) cursor.old) result cursor.new }
    {
        let variable = inner_variable::<G, E>(
            cursor,
            self.here.room,
            self.here.flags,
            self.here.expression,
        )?;
        whole_variable::<G>(cursor, variable)
    }
}

impl<
    G: MakesVariables,
    E: Fn(&mut Cursor, u16, Flags, Nested) -> Result<G::Reading, Halt>,
    S,
> Statements<'_, G, E, S> {
    /// The variables of a statement.
    #[tactic(auto, using(es6_cursor::proofs::Rules::lists, crate::proofs::VariableLists::variables_turn, crate::proofs::VariableLists::variables_more), unfolding(es6_reading::specs::Statements::variables))]
    fn variables(&self, cursor: &mut Cursor) -> Result<G::Parts, Halt>
        requires expressions { HasExpressions G.seen E.pre E.post self.now.here }
        ensures { ReadsAs G.seen_parts (variables (initialized (inner self.now.here.room) self.now.here.flags self.now.here.flags) (inner self.now.here.room).fuel cursor.old) result cursor.new }
    {
        let mut list = G::no_parts(cursor.alloc());
        for turn in 0..TURNS {
            let variable = self.declared_variable(cursor)?;
            G::push_part(&mut list, variable)?;
            if !cursor.take_mark(Punctuator::Comma) {
                return Ok(list);
            }
        }
        Err(Halt::Stopped(Stop::Endless))
    }

    /// The variables of a for header behind a comma (13.7.4).
    #[tactic(auto, using(es6_cursor::proofs::Rules::lists, crate::proofs::VariableLists::variables_turn, crate::proofs::VariableLists::variables_more), unfolding(es6_reading::specs::Statements::variables))]
    pub fn more_variables(&self, cursor: &mut Cursor) -> Result<G::Parts, Halt>
        requires expressions { HasExpressions G.seen E.pre E.post self.now.here }
        ensures { ReadsAs G.seen_parts (variables ((inner self.now.here.room).variable self.now.here.flags) (inner self.now.here.room).fuel cursor.old) result cursor.new }
    {
        let mut list = G::no_parts(cursor.alloc());
        for turn in 0..TURNS {
            let variable = self.for_variable(cursor)?;
            G::push_part(&mut list, variable)?;
            if !cursor.take_mark(Punctuator::Comma) {
                return Ok(list);
            }
        }
        Err(Halt::Stopped(Stop::Endless))
    }

    /// What follows the word `var`, `let` or `const`.
    #[tactic(auto, using(es6_cursor::proofs::Rules::statements), unfolding(es6_reading::specs::Statements::variables_statement))]
    #[inline(never)]
    pub fn variables_statement(
        &self,
        cursor: &mut Cursor,
        begin: u32,
        kind: VariableKind,
    ) -> Result<G::Statement, Halt>
        requires expressions { HasExpressions G.seen E.pre E.post self.now.here }
        ensures { ReadsAs G.seen_statement (variables_statement (inner self.now.here.room) self.now.here.flags begin kind cursor.old) result cursor.new }
    {
        let parts = self.variables(cursor)?;
        cursor.semicolon()?;
        Ok(G::variables(cursor.span_from(begin), kind, parts))
    }
}
