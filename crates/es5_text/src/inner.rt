//! The readers of what stands one construct deeper, which hand themselves to the readers of what they find there. These are all that
//! lead back to themselves.

ghost use Rattle.es5_cursor.specs.Nests.{nested_of};
ghost use Rattle.es5_cursor.specs.Readers.{inner};
ghost use Rattle.es5_cursor.specs.Reads.{Reads};

use crate::limit::{nested_at_limit, statement_at_limit};
use crate::nested::nested;
use es5_ast::Stat5;
use es5_cursor::{Cursor, Halt, Nested};
use es5_nodes::Read;
use es5_read_statements::statement;
use sqlite_items::Boxed;

/// An expression one construct deeper.
#[tactic(auto, using(crate::proofs::Inside::nested_none, crate::proofs::Inside::nested_some))]
#[cycle(reader)]
pub fn nested_expression(
    cursor: &mut Cursor,
    room: u16,
    no_in: bool,
    kind: Nested,
) -> Result<Read, Halt>
    ensures { Reads (nested_of kind (inner room) no_in cursor.old) result cursor.new }
{
    if room == 0 {
        nested_at_limit(cursor, kind)
    } else {
        nested::<_, _>(
            cursor,
            room - 1,
            no_in,
            kind,
            &nested_expression,
            &inner_statement,
        )
    }
}

/// A statement one construct deeper, or in a list.
#[tactic(auto, using(crate::proofs::Inside::statement_none, crate::proofs::Inside::statement_some))]
#[cycle(reader)]
pub fn inner_statement(
    cursor: &mut Cursor,
    room: u16,
    inside: bool,
    top: bool,
) -> Result<Boxed<Stat5>, Halt>
    ensures { Reads ((inner room).statement inside top cursor.old) result cursor.new }
{
    if room == 0 {
        statement_at_limit(cursor, inside)
    } else {
        statement::<_, _>(
            cursor,
            room - 1,
            inside,
            top,
            &nested_expression,
            &inner_statement,
        )
    }
}
