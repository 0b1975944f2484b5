//! Where the modules of `export *` are.

ghost use Rattle.std.specs.Prelude.{◌≡◌, ◌++◌, OnOk};
ghost use Rattle.es6_static_semantics.specs.Findings.{joined};
ghost use Rattle.module_summaries.specs.Homes.{home_in};
ghost use Rattle.module_summaries.specs.Parts.{stars_at};

use crate::homes::Homes;
use es6_ast::Item;
use module_endings::Home;
use sqlite_items::Items;
use std::alloc::AllocError;

/// Adds the homes of the items' stars.
pub(crate) fn add_stars(
    all: &mut Items<Home>,
    homes: &Homes,
    items: &[Item],
) -> Result<(), AllocError>
    ensures { OnOk result (all.new ≡ all.old ++ joined (stars_at (home_in homes.now)) items.now) }
{
    for item in items {
        add_star(all, homes, item)?;
    }
    Ok(())
}

fn add_star(all: &mut Items<Home>, homes: &Homes, item: &Item) -> Result<(), AllocError>
    ensures { OnOk result (all.new ≡ all.old ++ stars_at (home_in homes.now) item.now) }
{
    match item {
        Item::ExportAll { from, .. } => all.push(homes.home(from)),
        Item::Import { .. }
        | Item::ExportNames { .. }
        | Item::ExportDeclaration { .. }
        | Item::ExportDefault { .. }
        | Item::Statement(_) => Ok(()),
    }
}
