//! The module of a text's tokens.

ghost use Rattle.std.specs.Prelude.{map, IfErr, IfOk};
ghost use Rattle.es6_ast.specs.Tokens.{read};
ghost use Rattle.es6_reading.specs.Modules.{read_module};
ghost use Rattle.es6_cursor.specs.Nested.{nested_of};
ghost use Rattle.es6_cursor.specs.Readers.{inner, turns};
ghost use Rattle.es6_cursor.specs.Reads.{Reads};
ghost use Rattle.es6_expr.specs.es6_module.Parsed.{Accepts, Answers, IsFault, IsParsed};

use crate::{ParseFault, fault_of, inner_statement, nested_expression, place_of};
use es6_ast::{Module, Statement};
use es6_cursor::{Cursor, Flags, Halt, Nested, Stand};
use es6_lexer::Token;
use es6_read_modules::whole_module;
use es6_trees::{Reading, Trees};
use std::alloc::Global;

/// How many constructs may be open at one token.
const MOST_OPEN: u16 = 256;

/// The module that is spelled by these tokens, of which the last is the end of the text or its lexical fault.
///
/// The recursion is as deep as 256 constructs.
pub fn parse_module(alloc: Global, tokens: &[Token]) -> Result<Module, ParseFault>
    // The tokens spell the module, and none of them is dead or too deep.
    ensures parsed { IfOk result (λ tree. IsParsed tokens.now tree) }
    // It is the only one that they spell, and none is refused but for its depth or for want of memory.
    ensures accepted { Accepts tokens.now result }
    // A fault stands at the first token that is dead or too deep, or behind all of them.
    ensures fault { IfErr result (λ fault. IsFault tokens.now fault) }
    // What is read, and which fault it is, is what the laws of `es6_reading` speak of.
    ensures read { Answers tokens.now (read_module turns (map read tokens.now)) result }
{
    read_tokens(alloc, tokens)
}

/// The same, as the model reads the tokens.
#[tactic(auto, unfolding(es6_reading::specs::Modules::read_module))]
fn read_tokens(alloc: Global, tokens: &[Token]) -> Result<Module, ParseFault>
    ensures { Answers tokens.now (read_module turns (map read tokens.now)) result }
{
    let mut cursor = Cursor::new(alloc, tokens);
    match whole_module::<Trees, _, _>(
        &mut cursor,
        MOST_OPEN,
        &expression_inside,
        &statement_inside,
    ) {
        Ok(tree) => Ok(tree),
        Err(Halt::Stopped(stop)) => Err(fault_of(stop, place_of(tokens, cursor.rest()))),
        Err(Halt::OutOfMemory) => Err(ParseFault::OutOfMemory),
    }
}

/// The reader of an expression inside an item, as it is handed to the readers of items.
fn expression_inside(
    cursor: &mut Cursor,
    room: u16,
    flags: Flags,
    kind: Nested,
) -> Result<Reading, Halt>
    ensures { Reads (nested_of kind (inner room) flags cursor.old) result cursor.new }
{
    nested_expression(cursor, room, flags, kind)
}

/// The reader of a statement that is an item.
fn statement_inside(
    cursor: &mut Cursor,
    room: u16,
    flags: Flags,
    stand: Stand,
) -> Result<Statement, Halt>
    ensures { Reads ((inner room).statement flags stand cursor.old) result cursor.new }
{
    inner_statement(cursor, room, flags, stand)
}
