//! Statements in braces (ECMA-262, 6th edition, 13.2).

ghost use Rattle.es6_cursor.specs.Nests.{ReadsStatements};
ghost use Rattle.es6_cursor.specs.Readers.{inner};
ghost use Rattle.es6_cursor.specs.Reads.{ReadsAs};
ghost use Rattle.es6_reading.specs.Parts.{block, statements};

use es6_cursor::{Cursor, Flags, Halt, Stand, Stop, TURNS, enter};
use es6_lexer::Punctuator;
use es6_makers::{MakesBlocks, MakesStatementLists};

/// The statements of a block or a function after the opening brace, and the closing brace.
#[tactic(auto, using(es6_cursor::proofs::Rules::lists, crate::proofs::PartLists::statement_turns), unfolding(es6_reading::specs::Parts::statements))]
pub fn statements<
    G: MakesStatementLists,
    S: Fn(&mut Cursor, u16, Flags, Stand) -> Result<G::Statement, Halt>,
>(cursor: &mut Cursor, room: u16, flags: Flags, statement: &S) -> Result<G::Statements, Halt>
    requires statements { ReadsStatements G.seen_statement room (S.pre statement.now) (S.post statement.now) }
    ensures { ReadsAs G.seen_statements (statements (inner room) flags (inner room).fuel cursor.old) result cursor.new }
{
    let mut list = G::no_statements(cursor.alloc());
    for turn in 0..TURNS {
        if cursor.take_mark(Punctuator::RightBrace) {
            return Ok(list);
        }
        let statement = statement(cursor, room, flags, Stand::Listed)?;
        G::push_statement(cursor.alloc(), &mut list, statement)?;
    }
    Err(Halt::Stopped(Stop::Endless))
}

/// Block.
#[tactic(auto, using(es6_cursor::proofs::Rules::groups), unfolding(es6_reading::specs::Parts::block))]
pub fn block<G: MakesBlocks, S: Fn(&mut Cursor, u16, Flags, Stand) -> Result<G::Statement, Halt>>(
    cursor: &mut Cursor,
    room: u16,
    flags: Flags,
    statement: &S,
) -> Result<G::Block, Halt>
    requires statements { ReadsStatements G.seen_statement room (S.pre statement.now) (S.post statement.now) }
    ensures { ReadsAs G.seen_block (block (inner room) flags cursor.old) result cursor.new }
{
    let begin = cursor.begin();
    enter(cursor, room, Punctuator::LeftBrace)?;
    let statements = statements::<G, S>(cursor, room, flags, statement)?;
    Ok(G::block(cursor.span_from(begin), statements))
}
