//! What is asked of each module.

ghost use Rattle.std.specs.Prelude.{◌≤◌, length, IfOk};
ghost use Rattle.graph_namespaces.specs.Asked.{AskAll};

use crate::reached::names_for;
use module_endings::Summary;
use sqlite_items::Items;
use std::alloc::{AllocError, Global};

/// For each module a summary that exports nothing and wants the names that the module may export.
pub(crate) fn asked_of(alloc: Global, known: &[Summary]) -> Result<Items<Summary>, AllocError>
    requires { length known.now ≤ 1024 }
    ensures { IfOk result (λ asked. AskAll known.now asked) }
{
    let mut asked = Items::new(alloc);
    for index in 0..known.len() {
        let summary = Summary {
            exports: Items::new(alloc),
            stars: Items::new(alloc),
            wants: names_for(alloc, known, index as u32)?,
        };
        asked.push(summary)?;
    }
    Ok(asked)
}
