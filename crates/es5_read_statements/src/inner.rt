//! A variable, one construct deeper.

ghost use Rattle.es5_cursor.specs.Nests.{ReadsExpressions};
ghost use Rattle.es5_cursor.specs.Reads.{Reads};
ghost use Rattle.es5_cursor.specs.Readers.{inner};

use crate::variables::one_declared;
use es5_ast::Declared5;
use es5_cursor::{Cursor, Halt, Nested, Stop};
use es5_nodes::Read;
use sqlite_items::Boxed;

/// A variable of a for header (12.6.3), one construct deeper.
#[tactic(auto, using(crate::proofs::Inside::declared_none, crate::proofs::Inside::declared_some, es5_cursor::proofs::Nests::fewer_expressions, es5_cursor::proofs::Nests::fewer_statements))]
pub fn inner_declared<E: Fn(&mut Cursor, u16, bool, Nested) -> Result<Read, Halt>>(
    cursor: &mut Cursor,
    room: u16,
    no_in: bool,
    expression: &E,
) -> Result<Boxed<Declared5>, Halt>
    requires expressions { ReadsExpressions room (E.pre expression.now) (E.post expression.now) }
    ensures { Reads ((inner room).declared no_in cursor.old) result cursor.new }
{
    if room == 0 {
        Err(Halt::Stopped(Stop::Depth))
    } else {
        one_declared::<E>(cursor, room - 1, no_in, expression)
    }
}
