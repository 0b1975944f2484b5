//! The map that a script holds, in its last line that isn't empty.
ghost use Rattle.std.specs.Prelude.{◌≡◌, ◌≤◌, length, take, drop, IfOk, IsErrOf, ◌≢◌, ℕ, List};
ghost use Rattle.base64.specs.GeneralPurpose.{IsBytes};
ghost use Rattle.source_map.specs.Maps.{IsMap};
ghost use Rattle.source_map.specs.Outcome.{Gives, GivesBy};
ghost use Rattle.source_map.specs.Line.{text_end, line_begin, last_line, text_of_line, map_text_of, script_map_of, line_of};

use crate::document::read_map;
use crate::fault::MapFault;
use crate::map::Map;
use base64::DecodeAllocError;
use base64::engine::general_purpose::STANDARD;
use std::alloc::Global;

/// What the line of a map begins with. The map's text follows in standard base64.
pub const HEAD: &[u8] = b"//# sourceMappingURL=data:application/json;base64,";

/// Where the line feeds begin that a script ends with.
fn end_of(script: &[u8]) -> usize
    ensures exact { result ≡ text_end script.now (length script.now) }
    ensures within { result ≤ length script.now }
{
    let mut end = script.len();
    while end > 0 && script[end - 1] == b'\n' {
        end -= 1;
    }
    end
}

/// Where the line begins that goes on up to a byte.
fn begin_of(script: &[u8], end: usize) -> usize
    requires { end ≤ length script.now }
    ensures exact { result ≡ line_begin script.now end }
    ensures within { result ≤ end }
{
    let mut begin = end;
    while begin > 0 && script[begin - 1] != b'\n' {
        begin -= 1;
    }
    begin
}

fn last_line_of(script: &[u8]) -> &[u8]
    ensures { result.now ≡ last_line script.now }
{
    let end = end_of(script);
    let begin = begin_of(script, end);
    let text = &script[..end];
    &text[begin..]
}

/// The text of the map that a script holds.
#[tactic(auto, unfolding(crate::specs::Line::map_text_of))]
pub fn map_text(alloc: Global, script: &[u8]) -> Result<Vec<u8>, MapFault>
    ensures exact { GivesBy (λ v. v.items) result (map_text_of script.now) }
    // The line is the text in base64, and where it isn't any text's, that is the fault.
    ensures line { IfOk result (λ v. last_line script.now ≡ line_of v.items) }
    ensures other { IsErrOf result MapFault.BadBase64
        → (text : List ℕ) → IsBytes text → last_line script.now ≢ line_of text }
{
    let Some(base64) = last_line_of(script).strip_prefix(HEAD) else {
        return Err(MapFault::NoMap);
    };
    match STANDARD.decode(alloc, base64) {
        Ok(text) => Ok(text),
        Err(DecodeAllocError::DecodeError(_)) => Err(MapFault::BadBase64),
        Err(DecodeAllocError::OutOfMemory) => Err(MapFault::OutOfMemory),
    }
}

/// The map that a script holds.
pub fn map_of_script(alloc: Global, script: &[u8]) -> Result<Map, MapFault>
    ensures exact { Gives result (script_map_of script.now) }
    ensures valid { IfOk result IsMap }
{
    let text = map_text(alloc, script)?;
    read_map(alloc, &text)
}
