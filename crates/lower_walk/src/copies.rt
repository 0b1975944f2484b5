//! Copies of what is round a node.

ghost use Rattle.std.specs.Prelude.{◌≡◌, IfOk};

use module_lowering::JumpTarget;
use shared_text::Name;
use sqlite_items::Items;
use std::alloc::{AllocError, Global};

fn copied_label(alloc: Global, label: &Option<Name>) -> Result<Option<Name>, AllocError>
    ensures { IfOk result (λ l. l ≡ label.now) }
{
    match label {
        None => Ok(None),
        Some(label) => Ok(Some(label.copy(alloc)?)),
    }
}

fn copied_target(alloc: Global, target: &JumpTarget) -> Result<JumpTarget, AllocError>
    ensures { IfOk result (λ t. t ≡ target.now) }
{
    Ok(JumpTarget {
        label: copied_label(alloc, &target.label)?,
        at: target.at,
        form: target.form,
    })
}

pub(crate) fn copied_targets(
    alloc: Global,
    targets: &[JumpTarget],
) -> Result<Items<JumpTarget>, AllocError>
    ensures { IfOk result (λ ts. ts ≡ targets.now) }
{
    let mut copies = Items::new(alloc);
    for target in targets {
        copies.push(copied_target(alloc, target)?)?;
    }
    Ok(copies)
}
