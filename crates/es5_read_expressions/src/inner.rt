//! A property, one construct deeper.

ghost use Rattle.es5_cursor.specs.Nests.{ReadsExpressions, ReadsStatements};
ghost use Rattle.es5_cursor.specs.Reads.{Reads};
ghost use Rattle.es5_cursor.specs.Readers.{inner};

use crate::property::one_property;
use es5_ast::{Property5, Stat5};
use es5_cursor::{Cursor, Halt, Nested, Stop};
use es5_nodes::Read;
use sqlite_items::Boxed;

/// A property of an object literal, which is a construct of its own (11.1.5).
#[tactic(auto, using(crate::proofs::Inside::property_none, crate::proofs::Inside::property_some, es5_cursor::proofs::Nests::fewer_statements))]
pub fn inner_property<
    E: Fn(&mut Cursor, u16, bool, Nested) -> Result<Read, Halt>,
    S: Fn(&mut Cursor, u16, bool, bool) -> Result<Boxed<Stat5>, Halt>,
>(cursor: &mut Cursor, room: u16, expression: &E, statement: &S) -> Result<Boxed<Property5>, Halt>
    requires expressions { ReadsExpressions room (E.pre expression.now) (E.post expression.now) }
    requires statements { ReadsStatements room (S.pre statement.now) (S.post statement.now) }
    ensures { Reads ((inner room).property cursor.old) result cursor.new }
{
    if room == 0 {
        Err(Halt::Stopped(Stop::Depth))
    } else {
        one_property::<E, S>(cursor, room - 1, expression, statement)
    }
}
