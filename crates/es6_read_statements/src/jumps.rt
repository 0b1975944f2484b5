//! Jumps, and the statement `debugger` (ECMA-262, 6th edition, 13.8 to 13.10, 13.14, 13.16).

ghost use Rattle.es6_cursor.specs.Readers.{inner};
ghost use Rattle.es6_cursor.specs.Reads.{ReadsAs};
ghost use Rattle.es6_read_parts.specs.Handed.{HasOuterExpressions};
ghost use Rattle.es6_reading.specs.Statements.{break_statement, continue_statement, debugger_statement, return_statement, returned, throw_statement};
ghost use Rattle.std.specs.Prelude.{◌<◌};

use crate::readers::Statements;
use es6_cursor::{Cursor, Flags, Halt, Nested};
use es6_makers::{MakesExpressionStatements, MakesOptionals, MakesReturns, MakesSimpleStatements};
use es6_read_parts::Here;

/// What follows the word `continue` (13.8).
#[tactic(auto, using(es6_cursor::proofs::Rules::statements), unfolding(es6_reading::specs::Statements::continue_statement))]
#[inline(never)]
pub fn continue_statement<G: MakesSimpleStatements>(
    cursor: &mut Cursor,
    room: u16,
    begin: u32,
) -> Result<G::Statement, Halt>
    ensures { ReadsAs G.seen_statement (continue_statement (inner room) begin cursor.old) result cursor.new }
{
    let label = cursor.optional_label()?;
    cursor.semicolon()?;
    Ok(G::continue_statement(cursor.span_from(begin), label))
}

/// What follows the word `break` (13.9).
#[tactic(auto, using(es6_cursor::proofs::Rules::statements), unfolding(es6_reading::specs::Statements::break_statement))]
#[inline(never)]
pub fn break_statement<G: MakesSimpleStatements>(
    cursor: &mut Cursor,
    room: u16,
    begin: u32,
) -> Result<G::Statement, Halt>
    ensures { ReadsAs G.seen_statement (break_statement (inner room) begin cursor.old) result cursor.new }
{
    let label = cursor.optional_label()?;
    cursor.semicolon()?;
    Ok(G::break_statement(cursor.span_from(begin), label))
}

impl<
    G: MakesOptionals,
    E: Fn(&mut Cursor, u16, Flags, Nested) -> Result<G::Reading, Halt>,
    S,
> Statements<'_, G, E, S> {
    /// The value of a `return`, if it has one.
    #[tactic(auto, using(es6_cursor::proofs::Rules::groups), unfolding(es6_reading::specs::Statements::returned))]
    fn returned(&self, cursor: &mut Cursor) -> Result<G::Optional, Halt>
        requires below { self.now.here.room < 65535 }
        requires expressions { HasOuterExpressions G.seen E.pre E.post self.now.here }
        ensures { ReadsAs G.seen_optional (returned (inner self.now.here.room) self.now.here.flags cursor.old) result cursor.new }
    {
        if cursor.next_goes_on() {
            let here = Here {
                flags: self.here.flags.with_in(),
                ..self.here
            };
            let value = Statements { here }.sequence(cursor)?;
            return Ok(G::present(value));
        }
        Ok(G::absent())
    }
}

impl<
    G: MakesReturns,
    E: Fn(&mut Cursor, u16, Flags, Nested) -> Result<G::Reading, Halt>,
    S,
> Statements<'_, G, E, S> {
    /// What follows the word `return` (13.10).
    #[tactic(auto, using(es6_cursor::proofs::Rules::statements), unfolding(es6_reading::specs::Statements::return_statement))]
    #[inline(never)]
    pub fn return_statement(&self, cursor: &mut Cursor, begin: u32) -> Result<G::Statement, Halt>
        requires below { self.now.here.room < 65535 }
        requires expressions { HasOuterExpressions G.seen E.pre E.post self.now.here }
        ensures { ReadsAs G.seen_statement (return_statement (inner self.now.here.room) self.now.here.flags begin cursor.old) result cursor.new }
    {
        let value = self.returned(cursor)?;
        cursor.semicolon()?;
        Ok(G::return_statement(cursor.span_from(begin), value))
    }
}

impl<
    G: MakesExpressionStatements,
    E: Fn(&mut Cursor, u16, Flags, Nested) -> Result<G::Reading, Halt>,
    S,
> Statements<'_, G, E, S> {
    /// What follows the word `throw`, on its line (13.14).
    #[tactic(auto, using(es6_cursor::proofs::Rules::statements), unfolding(es6_reading::specs::Statements::throw_statement, es6_reading::specs::Parser::refused))]
    #[inline(never)]
    pub fn throw_statement(&self, cursor: &mut Cursor, begin: u32) -> Result<G::Statement, Halt>
        requires below { self.now.here.room < 65535 }
        requires expressions { HasOuterExpressions G.seen E.pre E.post self.now.here }
        ensures { ReadsAs G.seen_statement (throw_statement (inner self.now.here.room) self.now.here.flags begin cursor.old) result cursor.new }
    {
        if cursor.next_begins_line() {
            return Err(Halt::Stopped(cursor.refused()));
        }
        let here = Here {
            flags: self.here.flags.with_in(),
            ..self.here
        };
        let value = Statements { here }.sequence(cursor)?;
        cursor.semicolon()?;
        Ok(G::throw(cursor.span_from(begin), value))
    }
}

/// What follows the word `debugger` (13.16).
#[tactic(auto, using(es6_cursor::proofs::Rules::statements), unfolding(es6_reading::specs::Statements::debugger_statement))]
#[inline(never)]
pub fn debugger_statement<G: MakesSimpleStatements>(
    cursor: &mut Cursor,
    room: u16,
    begin: u32,
) -> Result<G::Statement, Halt>
    ensures { ReadsAs G.seen_statement (debugger_statement (inner room) begin cursor.old) result cursor.new }
{
    cursor.semicolon()?;
    Ok(G::debugger(cursor.span_from(begin)))
}
