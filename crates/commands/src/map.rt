//! The command `map`.

ghost use Rattle.std.specs.Prelude.{◌≡◌, ◌≤◌, [], MatchResult};
ghost use Rattle.commands.specs.Parts.{IsBytesMap, FitsScript, IsFileMap, Fits};
ghost use Rattle.command_words.specs.Words.{map_of};

use crate::fault::{CommandFault, Fault};
use es_outside::{FileAnswer, Files};
use source_map::{map_text, read_map};
use std::alloc::Global;

/// The most bytes of a script.
pub const MAX_SCRIPT_BYTES: u32 = 67_108_864;

/// The text of the map that the script with this path holds, and a line feed. A file is read up to one byte past the limit.
pub fn map_of<F: Files>(alloc: Global, path: &str, files: &mut F) -> Result<Vec<u8>, CommandFault>
    ensures made { MatchResult result
        (λ line. IsFileMap (F.files files.old) path.now line.items)
        (Fits [] (map_of path.now) (F.files files.old) (F.faults files.old) (F.faults files.new)) }
    ensures kept { F.files files.new ≡ F.files files.old }
    ensures no_fall { F.faults files.old ≤ F.faults files.new }
{
    match files.read(alloc, path, MAX_SCRIPT_BYTES) {
        FileAnswer::Found(bytes) => map_of_bytes(alloc, bytes.as_slice()),
        FileAnswer::Missing => Err(CommandFault::Refused(Fault::Missing)),
        FileAnswer::Failed => Err(CommandFault::Refused(Fault::ReadFailed)),
        FileAnswer::OutOfMemory => Err(CommandFault::OutOfMemory),
    }
}

/// The text of the map in a script's bytes, and a line feed.
#[tactic(auto, using(crate::proofs::Outcomes::map_text_fault, crate::proofs::Outcomes::map_read_fault))]
fn map_of_bytes(alloc: Global, script: &[u8]) -> Result<Vec<u8>, CommandFault>
    ensures { MatchResult result (λ line. IsBytesMap script.now line.items) (FitsScript script.now) }
{
    if script.len() > MAX_SCRIPT_BYTES as usize {
        return Err(CommandFault::Refused(Fault::FileTooLong));
    }
    let mut text = map_text(alloc, script)?;
    read_map(alloc, &text)?;
    match text.push(b'\n') {
        Ok(()) => Ok(text),
        Err(_) => Err(CommandFault::OutOfMemory),
    }
}
