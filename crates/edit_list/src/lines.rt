//! The lines of a list of edits.

ghost use Rattle.std.specs.Prelude.{◌≡◌, map, IfOk};
ghost use Rattle.edit_list.specs.Edits.{edits_of, ends_line, pieces, read};
ghost use Rattle.edit_list.specs.Reading.{Gives};

use crate::edit::Edit;
use crate::fault::ListFault;
use crate::reading::Reading;
use std::alloc::{AllocError, Global};

/// The edits that a text lists, one in each line.
///
/// A line ends with LF and is `put PATH FROM`, `drop PATH` or `build`, with single spaces, where PATH and FROM are paths in normal form;
/// 100 lines at the most are `build`. `BadEdit` comes exactly at the first line that isn't so.
pub fn edits_of(alloc: Global, text: &str) -> Result<Vec<Edit>, ListFault>
    ensures { Gives (edits_of text.now) result }
{
    let mut lines = pieces_of(alloc, text)?;
    // The last piece stands behind the last LF.
    lines.pop();
    let edits = read(alloc, &lines)?;
    if !ends_line(text) {
        return Err(ListFault::BadEdit {
            line: edits.len() + 1,
        });
    }
    Ok(edits)
}

fn pieces_of<'a>(alloc: Global, text: &'a str) -> Result<Vec<&'a str>, AllocError>
    ensures { IfOk result (λ all. map (λ s. s.now) all.items ≡ pieces text.now) }
{
    text.split('\n').collect(alloc)
}

/// Whether a text is empty or ends with LF.
fn ends_line(text: &str) -> bool
    ensures { result ≡ ends_line text.now }
{
    match text.as_bytes() {
        [] => true,
        [.., last] => *last == b'\n',
    }
}

/// The edits of these lines.
fn read(alloc: Global, lines: &[&str]) -> Result<Vec<Edit>, ListFault>
    ensures { Gives (read (map (λ s. s.now) lines.now)) result }
{
    let mut reading = Reading::new(alloc);
    for line in lines {
        reading.add(alloc, line)?;
    }
    Ok(reading.edits)
}
