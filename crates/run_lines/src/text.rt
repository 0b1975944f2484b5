//! Pieces of lines.

ghost use Rattle.std.specs.Prelude.{◌≡◌, [], ◌∷◌, ◌++◌, OnOk};
ghost use Rattle.std.specs.Fmt.{decimal};

use std::alloc::{AllocError, Global};

/// Adds a text.
pub(crate) fn push_text(line: &mut Vec<u8>, text: &str) -> Result<(), AllocError>
    ensures { OnOk result (line.new.items ≡ line.old.items ++ text.now) }
{
    line.extend_from_slice(text.as_bytes())
}

/// Adds a number in decimal.
pub(crate) fn push_number(alloc: Global, line: &mut Vec<u8>, number: u64) -> Result<(), AllocError>
    ensures { OnOk result (line.new.items ≡ line.old.items ++ decimal number) }
{
    let digits = format!(in alloc; "{number}")?;
    push_text(line, digits.as_str())
}

/// Adds a number behind a text.
pub(crate) fn push_numbered(
    alloc: Global,
    line: &mut Vec<u8>,
    text: &str,
    number: u64,
) -> Result<(), AllocError>
    ensures { OnOk result (line.new.items ≡ line.old.items ++ (text.now ++ decimal number)) }
{
    push_text(line, text)?;
    push_number(alloc, line, number)
}

/// Ends the line with this text.
pub(crate) fn end_line(line: &mut Vec<u8>, text: &str) -> Result<(), AllocError>
    ensures { OnOk result (line.new.items ≡ line.old.items ++ (text.now ++ 10 ∷ [])) }
{
    push_text(line, text)?;
    line.push(b'\n')?;
    Ok(())
}
