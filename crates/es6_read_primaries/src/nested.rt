//! What stands one construct deeper, where `in` is an operator.

ghost use Rattle.es6_ast.specs.Grammar.{with_in};
ghost use Rattle.es6_cursor.specs.Readers.{inner};
ghost use Rattle.es6_cursor.specs.Reads.{ReadsAs};
ghost use Rattle.es6_read_parts.specs.Handed.{HasExpressions};

use crate::readers::Primaries;
use es6_cursor::{Cursor, Flags, Halt, Nested};
use es6_makers::MakesReadings;

impl<
    G: MakesReadings,
    E: Fn(&mut Cursor, u16, Flags, Nested) -> Result<G::Reading, Halt>,
    S,
> Primaries<'_, G, E, S> {
    /// Expression.
    pub fn sequence_within(&self, cursor: &mut Cursor) -> Result<G::Reading, Halt>
        requires expressions { HasExpressions G.seen E.pre E.post self.now.here }
        ensures { ReadsAs G.seen ((inner self.now.here.room).sequence (with_in self.now.here.flags) cursor.old) result cursor.new }
    {
        (self.here.expression)(
            cursor,
            self.here.room,
            self.here.flags.with_in(),
            Nested::Sequence,
        )
    }

    /// AssignmentExpression.
    pub fn assignment_within(&self, cursor: &mut Cursor) -> Result<G::Reading, Halt>
        requires expressions { HasExpressions G.seen E.pre E.post self.now.here }
        ensures { ReadsAs G.seen ((inner self.now.here.room).assignment (with_in self.now.here.flags) cursor.old) result cursor.new }
    {
        (self.here.expression)(
            cursor,
            self.here.room,
            self.here.flags.with_in(),
            Nested::Assignment,
        )
    }
}
