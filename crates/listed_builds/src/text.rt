//! What is written of a build.

ghost use Rattle.std.specs.Prelude.{◌≡◌, IfOk};
ghost use Rattle.listed_builds.specs.Texts.{built_line, built_text, refused_text};

use std::alloc::{AllocError, Global};

/// The text of an accepted build: a line that says how many modules the graph has, how many of them were read and how many bytes the
/// script has, and the script.
pub fn built_text(
    alloc: Global,
    modules: usize,
    parsed: usize,
    script: &[u8],
) -> Result<Vec<u8>, AllocError>
    ensures { IfOk result (λ text. text.items ≡ built_text modules parsed script.now) }
{
    let mut text = built_line(alloc, modules, parsed, script.len())?;
    text.extend_from_slice(script)?;
    Ok(text)
}

fn built_line(
    alloc: Global,
    modules: usize,
    parsed: usize,
    bytes: usize,
) -> Result<Vec<u8>, AllocError>
    ensures { IfOk result (λ line. line.items ≡ built_line modules parsed bytes) }
{
    let line = format!(in alloc; "build: modules {modules}, parsed {parsed}, bytes {bytes}\n")?;
    Vec::from_slice(alloc, line.as_bytes())
}

/// The text of a refused build, with the line that says why.
pub fn refused_text(alloc: Global, line: &[u8]) -> Result<Vec<u8>, AllocError>
    ensures { IfOk result (λ text. text.items ≡ refused_text line.now) }
{
    let mut text = Vec::from_slice(alloc, b"refused ")?;
    text.extend_from_slice(line)?;
    Ok(text)
}
