//! Faults of the reader of modules, with their places.

ghost use Rattle.std.specs.Prelude.{◌≡◌};
ghost use Rattle.module_linker.specs.module_checks.Faults.{IsPlaced, offset_of};

use crate::module_checks::fault::ModuleFault;
use es_text::Lines;
use es6_module::ParseFault;
use module_places::place_of;

/// A fault of the reader, at its place.
pub fn unparsed(lines: &Lines, fault: ParseFault) -> ModuleFault
    ensures { IsPlaced lines.now fault result }
{
    match offset_of(fault) {
        None => ModuleFault::OutOfMemory,
        Some(at) => ModuleFault::Parse {
            place: place_of(lines, at),
            fault,
        },
    }
}

/// The offset in bytes at which the fault stands. Want of memory stands nowhere.
fn offset_of(fault: ParseFault) -> Option<u32>
    ensures { result ≡ offset_of fault }
{
    match fault {
        ParseFault::Syntax { at }
        | ParseFault::Lexical { at, .. }
        | ParseFault::Outside { at, .. }
        | ParseFault::Depth { at } => Some(at),
        ParseFault::OutOfMemory => None,
    }
}
