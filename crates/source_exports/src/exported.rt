//! What namespace objects have (ECMA-262, 6th edition, 9.4.6).

ghost use Rattle.std.specs.Prelude.{◌≡◌, ◌++◌, List, OnOk, IfOk};
ghost use Rattle.std.specs.List.{cons_option};
ghost use Rattle.module_resolution.specs.Summaries.{AreSummaries};
ghost use Rattle.source_exports.specs.Known.{ends_alone, exported_by, namespace_of as namespace_known};
ghost use Rattle.source_meaning.specs.Modules.{namespace_of};
ghost use Rattle.source_meaning.specs.State.{Exported as ExportedBy};

use crate::ends::ends_alone;
use crate::names::exported_names;
use crate::pair::Pair;
use es6_ast::Graph;
use module_endings::Summary;
use source_keys::name_units;
use source_state::{BorrowedName, Exported};
use sqlite_items::Items;
use std::alloc::{AllocError, Global};

/// A name of a namespace object, if it ends at one binding.
fn exported_by<'a>(
    alloc: Global,
    name: &BorrowedName<'a>,
    end: Option<Pair<'a>>,
) -> Result<Option<Exported<'a>>, AllocError>
    ensures { IfOk result (λ exported. exported ≡ exported_by name.now end.entry) }
{
    match end {
        None => Ok(None),
        Some(end) => Ok(Some(Exported {
            name: name_units(alloc, name.bytes())?,
            home: end.home(),
            local: end.name(),
        })),
    }
}

fn add_exported<'a>(
    alloc: Global,
    known: &'a [Summary],
    number: u32,
    name: &BorrowedName<'a>,
    exports: &mut Items<Exported<'a>>,
) -> Result<(), AllocError>
    ensures { OnOk result ((rest : List ExportedBy) → exports.new ++ rest ≡ exports.old ++ cons_option (exported_by name.now (ends_alone known.now number name.now)) rest) }
{
    let end = ends_alone(alloc, known, number, name.share())?;
    match exported_by(alloc, name, end)? {
        None => Ok(()),
        Some(exported) => exports.push(exported),
    }
}

fn namespace_known<'a>(
    alloc: Global,
    known: &'a [Summary],
    number: u32,
) -> Result<Items<Exported<'a>>, AllocError>
    ensures { IfOk result (λ exports. exports ≡ namespace_known known.now number) }
{
    let names = exported_names(alloc, known, number)?;
    let mut exports = Items::new(alloc);
    for name in names.as_slice() {
        add_exported(alloc, known, number, name, &mut exports)?;
    }
    Ok(exports)
}

/// What the namespace object of a module has: each name that it exports and that ends at one binding, with that binding. `known` has the
/// summaries of the graph's modules.
#[tactic(auto, using(crate::proofs::Graphs::namespace_by))]
pub fn namespace_of<'a>(
    alloc: Global,
    graph: &Graph,
    known: &'a [Summary],
    number: u32,
) -> Result<Items<Exported<'a>>, AllocError>
    requires { AreSummaries graph.now.modules known.now }
    ensures { IfOk result (λ exports. exports ≡ namespace_of graph.now number) }
{
    namespace_known(alloc, known, number)
}
