//! Where offsets of a text stand.

ghost use Rattle.std.specs.Prelude.{◌≡◌};
ghost use Rattle.run_parts.specs.Places.{place_in};

use es_text::{Lines, Place};

/// The place of the character that begins at an offset in bytes, or of the end there; else the text's first place.
pub fn place_in(lines: &Lines, offset: u32) -> Place
    ensures { result ≡ place_in lines.now offset }
{
    match lines.place(offset) {
        Some(place) => place,
        None => Place { line: 0, column: 0 },
    }
}
