//! What opens a construct, of which only so many may stand in one another.

ghost use Rattle.std.specs.Prelude.{◌≡◌};
ghost use Rattle.es5_reading.specs.Parser.{group, returns};
ghost use Rattle.es5_tokens.specs.Punctuators.{spelling};
ghost use Rattle.es5_cursor.specs.Reads.{Reads};
ghost use Rattle.es5_cursor.specs.Groups.{Opens};
ghost use Rattle.es5_cursor.specs.Readers.{inner};

use crate::cursor::Cursor;
use crate::halt::{Halt, Stop};
use es5_tokens::Punctuator;

/// Takes the mark that opens a construct, if it is next. It is a fault where no construct may open any more.
#[tactic(auto, using(crate::proofs::Rooms::some_room, crate::proofs::Rooms::no_room))]
pub fn open(cursor: &mut Cursor, room: u16, punctuator: Punctuator) -> Result<bool, Halt>
    ensures { Opens (inner room) (spelling punctuator) cursor.old result cursor.new }
{
    if room == 0 {
        shut(cursor, punctuator)
    } else {
        Ok(cursor.take_mark(punctuator))
    }
}

#[tactic(auto, using(crate::proofs::Groups::shut, crate::proofs::Rooms::no_room))]
fn shut(cursor: &Cursor, punctuator: Punctuator) -> Result<bool, Halt>
    ensures { Opens (inner 0) (spelling punctuator) cursor.now result cursor.now }
{
    if cursor.next_is_mark(punctuator) {
        Err(Halt::Stopped(Stop::Depth))
    } else {
        Ok(false)
    }
}

/// Takes the mark that opens a construct, which has to be next.
#[tactic(auto, using(crate::proofs::Rules::groups))]
#[inline(never)]
pub fn enter(cursor: &mut Cursor, room: u16, punctuator: Punctuator) -> Result<(), Halt>
    ensures { Reads (group (inner room) (spelling punctuator) (returns (tt {0})) cursor.old) result cursor.new }
{
    if open(cursor, room, punctuator)? {
        Ok(())
    } else {
        Err(Halt::Stopped(Stop::Syntax))
    }
}
