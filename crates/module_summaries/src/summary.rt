//! Summaries of modules.

ghost use Rattle.std.specs.Prelude.{◌≡◌, IfOk, map};
ghost use Rattle.es6_static_semantics.specs.Endings.{wants};
ghost use Rattle.module_resolution.specs.Summaries.{summary_of};

use crate::declares::Declares;
use crate::exports::Exporter;
use crate::homes::Homes;
use crate::imports::add_imports;
use crate::stars::add_stars;
use crate::wants::{Wants, add_wants};
use es6_ast::LoadedModule;
use module_endings::{Sources, Summary};
use sqlite_items::Items;
use std::alloc::{AllocError, Global};

/// The summary of a module, and the offset in bytes at which each wanted name stands.
#[derive(Drop)]
pub struct Summarized {
    pub summary: Summary,
    pub offsets: Items<u32>,
}

/// The summary of the module with this number, in time linear in its names.
pub fn summary_of<D: Declares>(
    alloc: Global,
    number: u32,
    module: &LoadedModule,
) -> Result<Summarized, AllocError>
    ensures summary { IfOk result (λ made. made.summary ≡ summary_of number «module».now) }
    ensures offsets { IfOk result (λ made. made.offsets ≡ map (λ w. w.at) (wants «module».now.tree)) }
{
    let items = module.tree.items.as_slice();
    let homes = Homes::of(alloc, module.requests.as_slice())?;
    let mut imports = Items::new(alloc);
    add_imports(&mut imports, alloc, &homes, items)?;
    let exporter = Exporter {
        alloc,
        number,
        homes,
        imports: Sources::of(alloc, imports.as_slice())?,
    };
    let mut exports = Items::new(alloc);
    exporter.add::<D>(&mut exports, items)?;
    let mut stars = Items::new(alloc);
    add_stars(&mut stars, &exporter.homes, items)?;
    let mut wants = Wants::new(alloc);
    add_wants(&mut wants, alloc, &exporter.homes, items)?;
    let Wants { places, offsets } = wants;
    let summary = Summary {
        exports,
        stars,
        wants: places,
    };
    Ok(Summarized { summary, offsets })
}
