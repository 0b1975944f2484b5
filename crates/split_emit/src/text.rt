//! The text of a list of scripts.

ghost use Rattle.std.specs.Prelude.{◌≡◌, ◌++◌, OnOk, IfOk};
ghost use Rattle.split_emit.specs.Split.{script_text, split_text};

use crate::scripts::SplitScript;
use std::alloc::{AllocError, Global};

/// A script, and a line before it with its name and the number of its bytes.
fn push_script(alloc: Global, script: &SplitScript, out: &mut Vec<u8>) -> Result<(), AllocError>
    ensures { OnOk result (out.new.items ≡ out.old.items ++ script_text script.now) }
{
    let name = script.name.as_str();
    let length = script.bytes.len();
    let line = format!(in alloc; "{name} {length}\n")?;
    out.extend_from_slice(line.as_bytes())?;
    out.extend_from_slice(script.bytes.as_slice())?;
    Ok(())
}

/// The text of a list of scripts.
pub(crate) fn text_of(alloc: Global, scripts: &[SplitScript]) -> Result<Vec<u8>, AllocError>
    ensures { IfOk result (λ bytes. bytes.items ≡ split_text scripts.now) }
{
    let mut out = Vec::new(alloc);
    for script in scripts {
        push_script(alloc, script, &mut out)?;
    }
    Ok(out)
}
