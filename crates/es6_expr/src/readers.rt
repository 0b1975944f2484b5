//! Expressions and statements with all that stands inside them (ECMA-262, 6th edition, 12 to 14).

ghost use Rattle.std.specs.Prelude.{◌<◌};
ghost use Rattle.es6_cursor.specs.Readers.{inner};
ghost use Rattle.es6_cursor.specs.Reads.{Reads};
ghost use Rattle.es6_reading.specs.Expressions.{sequence};
ghost use Rattle.es6_reading.specs.Statements.{statement};

use crate::inner::{inner_statement, nested_expression};
use crate::nested::{listed, whole};
use es6_ast::Statement;
use es6_cursor::{Cursor, Flags, Halt, Stand};
use es6_trees::{Reading, Trees};

/// Expression (12.15).
#[tactic(auto, using(crate::proofs::Seen::reads_same))]
pub fn sequence(cursor: &mut Cursor, room: u16, flags: Flags) -> Result<Reading, Halt>
    ensures { Reads (sequence (inner room) flags cursor.old) result cursor.new }
{
    whole::<Trees, _, _>(cursor, room, flags, &nested_expression, &inner_statement)
}

/// A statement, or what else may stand there (13).
#[tactic(auto, using(crate::proofs::Seen::reads_same))]
pub fn statement(
    cursor: &mut Cursor,
    room: u16,
    flags: Flags,
    stand: Stand,
) -> Result<Statement, Halt>
    requires below { room < 65535 }
    ensures { Reads (statement (inner room) flags stand cursor.old) result cursor.new }
{
    listed::<Trees, _, _>(
        cursor,
        room,
        flags,
        stand,
        &nested_expression,
        &inner_statement,
    )
}
