//! The line that says why the edits of a list aren't done.

ghost use Rattle.std.specs.Prelude.{◌≡◌, ◌++◌, codes, IfOk, OnOk};
ghost use Rattle.std.specs.Fmt.{decimal};
ghost use Rattle.graph_refusals.specs.Quoted.{name_units, quoted};
ghost use Rattle.edit_reading.specs.Lines.{line_at, line_of};

use crate::fault::EditsFault;
use graph_refusals::{push_quoted, units_of_name};
use shared_text::Name;
use std::alloc::{AllocError, Global};

/// The line of a fault of the list with this path, or of a file that its edits need.
pub fn edits_line(alloc: Global, list: &str, fault: &EditsFault) -> Result<Vec<u8>, AllocError>
    ensures { IfOk result (λ line. line.items ≡ line_of list.now fault.now) }
{
    match fault {
        EditsFault::Missing => line_about(alloc, list.as_bytes(), ": missing\n"),
        EditsFault::ReadFailed => line_about(alloc, list.as_bytes(), ": read fault\n"),
        EditsFault::FileTooLong => line_about(alloc, list.as_bytes(), ": file too long\n"),
        EditsFault::NotUtf8 { at } => encoding_line(alloc, list, *at),
        EditsFault::BadEdit { line } => bad_edit_line(alloc, list, *line),
        EditsFault::MissingFile { line, from } => missing_line(alloc, list, *line, from),
        EditsFault::UnreadFile { path } => line_about(alloc, path.bytes(), ": read fault\n"),
    }
}

fn line_about(alloc: Global, path: &[u8], text: &str) -> Result<Vec<u8>, AllocError>
    ensures { IfOk result (λ line. line.items ≡ path.now ++ text.now) }
{
    let mut line = Vec::from_slice(alloc, path)?;
    line.extend_from_slice(text.as_bytes())?;
    Ok(line)
}

fn encoding_line(alloc: Global, list: &str, at: usize) -> Result<Vec<u8>, AllocError>
    ensures { IfOk result (λ line. line.items ≡ list.now ++ (codes ": not UTF-8 at byte " ++ (decimal at ++ codes "\n"))) }
{
    let text = format!(in alloc; ": not UTF-8 at byte {at}\n")?;
    line_about(alloc, list.as_bytes(), text.as_str())
}

/// What a line says of one of the list's lines begins so.
fn line_at(alloc: Global, list: &str, line: usize, text: &str) -> Result<Vec<u8>, AllocError>
    ensures { IfOk result (λ out. out.items ≡ line_at list.now line text.now) }
{
    let place = format!(in alloc; ":{line}:1: ")?;
    let mut out = line_about(alloc, list.as_bytes(), place.as_str())?;
    out.extend_from_slice(text.as_bytes())?;
    Ok(out)
}

fn bad_edit_line(alloc: Global, list: &str, line: usize) -> Result<Vec<u8>, AllocError>
    ensures { IfOk result (λ out. out.items ≡ line_at list.now line (codes "bad edit\n")) }
{
    line_at(alloc, list, line, "bad edit\n")
}

fn missing_line(alloc: Global, list: &str, line: usize, from: &Name) -> Result<Vec<u8>, AllocError>
    ensures { IfOk result (λ out.
        out.items ≡ line_at list.now line (codes "missing file ") ++ (quoted (name_units from.now) ++ codes "\n")) }
{
    let units = units_of_name(alloc, from)?;
    let mut out = line_at(alloc, list, line, "missing file ")?;
    push_quoted(&mut out, units.units())?;
    out.extend_from_slice(b"\n")?;
    Ok(out)
}
