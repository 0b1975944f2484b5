//! The last lines of a run.

ghost use Rattle.std.specs.Prelude.{◌≡◌, ◌++◌, OnOk};
ghost use Rattle.run_lines.specs.Endings.{ended_line, host_failed_line, left_line, seen_text, still_line, threw_line};

use crate::events::push_value;
use crate::text::{end_line, push_numbered, push_text};
use es_outside::Seen;
use es_text::Place;
use graph_refusals::{push_place, push_quoted};
use shared_text::Units;
use std::alloc::{AllocError, Global};

/// Adds the line of a run that came to the program's end.
pub fn push_ended(line: &mut Vec<u8>) -> Result<(), AllocError>
    ensures { OnOk result (line.new.items ≡ line.old.items ++ ended_line) }
{
    end_line(line, "ended")
}

/// Adds the line of a run that ended by a throw.
pub fn push_threw(alloc: Global, line: &mut Vec<u8>, seen: &Seen) -> Result<(), AllocError>
    ensures { OnOk result (line.new.items ≡ line.old.items ++ threw_line seen.now) }
{
    push_text(line, "threw ")?;
    push_seen(alloc, line, seen)?;
    end_line(line, "")
}

/// Adds what is seen of a thrown value.
fn push_seen(alloc: Global, line: &mut Vec<u8>, seen: &Seen) -> Result<(), AllocError>
    ensures { OnOk result (line.new.items ≡ line.old.items ++ seen_text seen.now) }
{
    match seen {
        Seen::Prim(value) => push_value(alloc, line, value),
        Seen::Error => push_text(line, "Error"),
        Seen::TypeError => push_text(line, "TypeError"),
        Seen::ReferenceError => push_text(line, "ReferenceError"),
        Seen::RangeError => push_text(line, "RangeError"),
        Seen::Object => push_text(line, "Object"),
    }
}

/// Adds the line of a run that left the profile at the exit of this number, at a place of the file with this path.
pub fn push_left(
    alloc: Global,
    line: &mut Vec<u8>,
    exit: u8,
    path: &[u8],
    place: &Place,
) -> Result<(), AllocError>
    ensures { OnOk result (line.new.items ≡ line.old.items ++ left_line exit path.now place.now) }
{
    push_numbered(alloc, line, "left X", u64::from(exit))?;
    push_text(line, " at ")?;
    line.extend_from_slice(path)?;
    push_place(alloc, line, place)?;
    end_line(line, "")
}

/// Adds the line of a run that is stopped after so many steps.
pub fn push_still_running(alloc: Global, line: &mut Vec<u8>, steps: u64) -> Result<(), AllocError>
    ensures { OnOk result (line.new.items ≡ line.old.items ++ still_line steps) }
{
    push_numbered(alloc, line, "still running after ", steps)?;
    end_line(line, " steps")
}

/// Adds the line of a host that failed.
pub fn push_host_failed(alloc: Global, line: &mut Vec<u8>, name: &str) -> Result<(), AllocError>
    ensures { OnOk result (line.new.items ≡ line.old.items ++ host_failed_line name.now) }
{
    let units = Units::of(alloc, name)?;
    push_text(line, "host ")?;
    push_quoted(line, units.units())?;
    end_line(line, " failed")
}
