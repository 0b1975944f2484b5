//! The expressions that statements hold with nothing round them (ECMA-262, 6th edition, 12.15).

ghost use Rattle.es6_cursor.specs.Readers.{inner};
ghost use Rattle.es6_cursor.specs.Reads.{ReadsAs};
ghost use Rattle.es6_read_parts.specs.Handed.{HasOuterExpressions};
ghost use Rattle.es6_reading.specs.Expressions.{sequence};
ghost use Rattle.std.specs.Prelude.{◌<◌};

use crate::readers::Statements;
use es6_cursor::{Cursor, Flags, Halt, Nested};
use es6_makers::MakesReadings;

impl<
    G: MakesReadings,
    E: Fn(&mut Cursor, u16, Flags, Nested) -> Result<G::Reading, Halt>,
    S,
> Statements<'_, G, E, S> {
    /// Expression. It opens no construct of its own, so it reads as what stands in a construct further out.
    #[tactic(auto, using(crate::proofs::FurtherOut::sequence_next))]
    pub fn sequence(&self, cursor: &mut Cursor) -> Result<G::Reading, Halt>
        requires below { self.now.here.room < 65535 }
        requires expressions { HasOuterExpressions G.seen E.pre E.post self.now.here }
        ensures { ReadsAs G.seen (sequence (inner self.now.here.room) self.now.here.flags cursor.old) result cursor.new }
    {
        (self.here.expression)(
            cursor,
            self.here.room + 1,
            self.here.flags,
            Nested::Sequence,
        )
    }
}
