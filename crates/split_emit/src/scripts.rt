//! Scripts with their names.

ghost use Rattle.std.specs.Prelude.{◌≡◌, ◌-◌, string_bytes, IfOk};
ghost use Rattle.split_emit.specs.Split.{name_at};

use std::alloc::{AllocError, Global};

/// A script with the line of its map, and the name of its file.
#[derive(Drop)]
pub struct SplitScript {
    pub name: String,
    pub bytes: Vec<u8>,
}

/// The name of the script at this place, where so many modules are.
pub(crate) fn name_at(alloc: Global, count: usize, place: usize) -> Result<String, AllocError>
    ensures { IfOk result (λ name. string_bytes name ≡ name_at count place) }
{
    if place == 0 {
        return String::from_str(alloc, "loader.js");
    }
    if count < place {
        return String::from_str(alloc, "start.js");
    }
    let number = place - 1;
    format!(in alloc; "{number}.js")
}
