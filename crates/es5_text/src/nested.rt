//! Expressions where a construct may open, by what they are (ECMA-262, 5.1 edition, 11).

ghost use Rattle.es5_cursor.specs.Nests.{ReadsExpressions, ReadsStatements};
ghost use Rattle.es5_cursor.specs.Readers.{inner};
ghost use Rattle.es5_cursor.specs.Reads.{Reads};
ghost use Rattle.es5_text.specs.Tie.{reader_of};

use es5_ast::Stat5;
use es5_cursor::{Cursor, Halt, Nested};
use es5_nodes::Read;
use es5_read_expressions::{assignment, chain, sequence, unary};
use sqlite_items::Boxed;

/// The expression of the kind.
#[tactic(auto, unfolding(crate::specs::Tie::reader_of))]
pub fn nested<
    E: Fn(&mut Cursor, u16, bool, Nested) -> Result<Read, Halt>,
    S: Fn(&mut Cursor, u16, bool, bool) -> Result<Boxed<Stat5>, Halt>,
>(
    cursor: &mut Cursor,
    room: u16,
    no_in: bool,
    kind: Nested,
    expression: &E,
    statement: &S,
) -> Result<Read, Halt>
    requires expressions { ReadsExpressions room (E.pre expression.now) (E.post expression.now) }
    requires statements { ReadsStatements room (S.pre statement.now) (S.post statement.now) }
    ensures { Reads (reader_of kind (inner room) no_in cursor.old) result cursor.new }
{
    match kind {
        Nested::Sequence => sequence::<E, S>(cursor, room, no_in, expression, statement),
        Nested::Assignment => assignment::<E, S>(cursor, room, no_in, expression, statement),
        Nested::Unary => unary::<E, S>(cursor, room, expression, statement),
        Nested::Callee => chain::<E, S>(cursor, room, false, expression, statement),
    }
}
