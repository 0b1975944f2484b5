//! Places that are told of modules.
#![tactic(auto)]

ghost use Rattle.std.specs.Prelude.{◌≡◌};
ghost use Rattle.es_text.specs.Places.{IsPlace};

use es_text::{Lines, Place};

/// The place of an offset in bytes, where a character begins there or the text ends; else the text's first place.
pub fn place_of(lines: &Lines, offset: u32) -> Place
    ensures { (place : Place) → IsPlace lines.now offset place → result ≡ place }
{
    match lines.place(offset) {
        None => Place { line: 0, column: 0 },
        Some(place) => place,
    }
}
