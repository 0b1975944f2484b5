//! The summaries of a graph's modules.

ghost use Rattle.std.specs.Prelude.{◌≤◌, length, IfOk};
ghost use Rattle.module_links.specs.Links.{AreSummed};

use es6_ast::LoadedModule;
use module_endings::Summary;
use module_summaries::{Declares, Summarized, summary_of};
use sqlite_items::Items;
use std::alloc::{AllocError, Global};

/// The modules' summaries, and for each module the offsets of the names that it wants.
#[derive(Drop)]
pub(crate) struct Summaries {
    pub(crate) summaries: Items<Summary>,
    pub(crate) offsets: Items<Items<u32>>,
}

pub(crate) fn summaries_of<D: Declares>(
    alloc: Global,
    modules: &[LoadedModule],
) -> Result<Summaries, AllocError>
    requires { length modules.now ≤ 1024 }
    ensures { IfOk result (λ all. AreSummed modules.now all) }
{
    let mut summaries = Items::new(alloc);
    let mut offsets = Items::new(alloc);
    for (index, module) in modules.iter().enumerate() {
        let made = summary_of::<D>(alloc, index as u32, module)?;
        let Summarized {
            summary,
            offsets: own,
        } = made;
        summaries.push(summary)?;
        offsets.push(own)?;
    }
    Ok(Summaries { summaries, offsets })
}
