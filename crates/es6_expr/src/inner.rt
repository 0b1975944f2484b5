//! The readers of what stands one construct deeper, which hand themselves to the readers of what they find there. These are all that
//! lead back to themselves.

ghost use Rattle.es6_cursor.specs.Readers.{inner};
ghost use Rattle.es6_cursor.specs.Reads.{Reads};
ghost use Rattle.es6_cursor.specs.Nested.{nested_of};

use crate::limits::nested_at_limit;
use crate::nested::{listed, nested};
use crate::statement_limit::statement_at_limit;
use es6_ast::Statement;
use es6_cursor::{Cursor, Flags, Halt, Nested, Stand};
use es6_trees::{Reading, Trees};

/// An expression one construct deeper.
#[tactic(auto, using(crate::proofs::Seen::reads_same, crate::proofs::Inside::nested_none, crate::proofs::Inside::nested_some))]
#[cycle(reader)]
pub fn nested_expression(
    cursor: &mut Cursor,
    room: u16,
    flags: Flags,
    kind: Nested,
) -> Result<Reading, Halt>
    ensures { Reads (nested_of kind (inner room) flags cursor.old) result cursor.new }
{
    if room == 0 {
        nested_at_limit::<Trees>(cursor, flags, kind)
    } else {
        nested::<Trees, _, _>(
            cursor,
            room - 1,
            flags,
            kind,
            &nested_expression,
            &inner_statement,
        )
    }
}

/// A statement or declaration one construct deeper, or in a list.
#[tactic(auto, using(crate::proofs::Seen::reads_same, crate::proofs::Inside::statement_none, crate::proofs::Inside::statement_some))]
#[cycle(reader)]
pub fn inner_statement(
    cursor: &mut Cursor,
    room: u16,
    flags: Flags,
    stand: Stand,
) -> Result<Statement, Halt>
    ensures { Reads ((inner room).statement flags stand cursor.old) result cursor.new }
{
    if room == 0 {
        statement_at_limit::<Trees>(cursor, flags, stand)
    } else {
        listed::<Trees, _, _>(
            cursor,
            room - 1,
            flags,
            stand,
            &nested_expression,
            &inner_statement,
        )
    }
}
