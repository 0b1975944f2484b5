//! Sources, a module each.

ghost use Rattle.std.specs.Prelude.{◌≡◌, IfOk};
ghost use Rattle.script_maps.specs.Mapped.{AreSources, IsSource};

use es6_ast::LoadedModule;
use source_map::Text;
use sqlite_items::Items;
use std::alloc::{AllocError, Global};

fn source_of(alloc: Global, path: &[u8]) -> Result<Text, AllocError>
    ensures { IfOk result (λ source. IsSource path.now source) }
{
    match str::from_utf8(path) {
        Ok(path) => Text::of(alloc, path),
        Err(_) => Text::of(alloc, ""),
    }
}

/// The paths of the modules.
#[tactic(auto, using(crate::proofs::Zips::zip_more))]
pub fn sources_of(alloc: Global, modules: &[LoadedModule]) -> Result<Items<Text>, AllocError>
    ensures { IfOk result (λ sources. AreSources modules.now sources) }
{
    let mut sources = Items::new(alloc);
    for module in modules {
        let source = source_of(alloc, module.path.bytes())?;
        sources.push(source)?;
    }
    Ok(sources)
}
