//! The summaries of a graph's modules.

ghost use Rattle.std.specs.Prelude.{◌≤◌, length, IfOk};
ghost use Rattle.module_resolution.specs.Summaries.{AreSummaries};

use crate::declares::Declares;
use crate::summary::{Summarized, summary_of};
use es6_ast::LoadedModule;
use module_endings::Summary;
use sqlite_items::Items;
use std::alloc::{AllocError, Global};

/// The summaries of the modules of a graph, in their order.
pub fn summaries_of<D: Declares>(
    alloc: Global,
    modules: &[LoadedModule],
) -> Result<Items<Summary>, AllocError>
    requires { length modules.now ≤ 1024 }
    ensures { IfOk result (λ all. AreSummaries modules.now all) }
{
    let mut summaries = Items::new(alloc);
    for (index, module) in modules.iter().enumerate() {
        let made = summary_of::<D>(alloc, index as u32, module)?;
        let Summarized { summary, .. } = made;
        summaries.push(summary)?;
    }
    Ok(summaries)
}
