//! What opens a construct, of which only so many may stand in one another.

ghost use Rattle.std.specs.Prelude.{◌≡◌};
ghost use Rattle.es6_reading.specs.Parser.{group, returns};
ghost use Rattle.es6_cursor.specs.Reads.{Reads};
ghost use Rattle.es6_cursor.specs.Groups.{Opens, opened_template};
ghost use Rattle.es6_cursor.specs.Readers.{inner};

use crate::cursor::Cursor;
use crate::halt::Halt;
use es6_ast::{Stop, Stretch};
use es6_lexer::Punctuator;

/// Takes the mark that opens a construct, if it is next. It is a fault where no construct may open any more.
#[tactic(auto, using(crate::proofs::Rooms::some_room, crate::proofs::Rooms::no_room))]
pub fn open(cursor: &mut Cursor, room: u16, punctuator: Punctuator) -> Result<bool, Halt>
    ensures { Opens (inner room) punctuator cursor.old result cursor.new }
{
    if room == 0 {
        shut(cursor, punctuator)
    } else {
        Ok(cursor.take_mark(punctuator))
    }
}

#[tactic(auto, using(crate::proofs::Groups::shut, crate::proofs::Rooms::no_room))]
fn shut(cursor: &Cursor, punctuator: Punctuator) -> Result<bool, Halt>
    ensures { Opens (inner 0) punctuator cursor.now result cursor.now }
{
    if cursor.next_is_mark(punctuator) {
        Err(Halt::Stopped(Stop::Depth))
    } else {
        Ok(false)
    }
}

/// Takes the mark that opens a construct, which has to be next.
#[tactic(auto, using(crate::proofs::Rules::groups))]
pub fn enter(cursor: &mut Cursor, room: u16, punctuator: Punctuator) -> Result<(), Halt>
    ensures { Reads (group (inner room) punctuator (returns (tt {0})) cursor.old) result cursor.new }
{
    if open(cursor, room, punctuator)? {
        Ok(())
    } else {
        cursor.refuse()
    }
}

/// Takes the first stretch of a template with values, if it is next (12.2.9). It is a fault where no construct may open any more.
#[tactic(auto, using(crate::proofs::Choices::choices, crate::proofs::Openings::opened, crate::proofs::Rooms::some_room))]
pub fn open_template(cursor: &mut Cursor, room: u16) -> Result<Option<Stretch>, Halt>
    ensures { Reads (opened_template (inner room) cursor.old) result cursor.new }
{
    if room == 0 {
        shut_template(cursor)
    } else {
        Ok(cursor.take_stretch(true, false)?)
    }
}

#[tactic(auto, using(crate::proofs::Choices::choices, crate::proofs::Openings::shut_at, crate::proofs::Rooms::no_room))]
fn shut_template(cursor: &Cursor) -> Result<Option<Stretch>, Halt>
    ensures { Reads (opened_template (inner 0) cursor.now) result cursor.now }
{
    if cursor.next_opens_template() {
        Err(Halt::Stopped(Stop::Depth))
    } else {
        Ok(None)
    }
}
