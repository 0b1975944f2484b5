//! The endings of a graph's modules.

ghost use Rattle.std.specs.Prelude.{◌≡◌, length, List, ℕ};
ghost use Rattle.module_endings.specs.Ends.{AreOutcomes, all_wants};
ghost use Rattle.module_links.specs.Links.{AreSummed, IsLinkable, LinksTo, graph_of};

use crate::fault::LinkFault;
use crate::hosts::names_of;
use crate::own::Teller;
use crate::summaries::{Summaries, summaries_of};
use es_outside::HostNames;
use es6_ast::{EndOf, Graph, LoadedModule};
use module_endings::{Outcome, outcomes};
use module_summaries::Declares;
use sqlite_items::Items;
use std::alloc::Global;

/// The endings of each module: of each imported name and of each name of an `export { .. } from`, in text order. A graph is refused at
/// the first name that ends nowhere or in more than one place, modules in load order and names by place.
pub fn endings_of<D: Declares>(
    alloc: Global,
    graph: &Graph,
    hosts: &HostNames,
) -> Result<Items<Items<EndOf>>, LinkFault>
    requires { IsLinkable graph.now }
    ensures { LinksTo graph.now hosts.now result }
{
    let modules = graph.modules.as_slice();
    // That no two hosts have one name is known of all `HostNames`.
    let _count = hosts.len();
    let names = names_of(alloc, hosts)?;
    let known = summaries_of::<D>(alloc, modules)?;
    let all = outcomes(alloc, known.summaries.as_slice(), names.as_slice())?;
    share(alloc, modules, &known, all.as_slice())
}

/// Gives each module the ends of its own names.
fn share(
    alloc: Global,
    modules: &[LoadedModule],
    known: &Summaries,
    outcomes: &[Outcome],
) -> Result<Items<Items<EndOf>>, LinkFault>
    requires summed { AreSummed modules.now known.now }
    requires sized { length outcomes.now ≡ length (all_wants known.now.summaries) }
    ensures { (hosts : List (List ℕ)) → IsLinkable (graph_of modules.now) → AreOutcomes known.now.summaries hosts (all_wants known.now.summaries) outcomes.now → LinksTo (graph_of modules.now) hosts result }
{
    let mut all = Items::new(alloc);
    let mut rest = outcomes;
    for (index, module) in modules.iter().enumerate() {
        let wants = known.summaries.as_slice()[index].wants.as_slice();
        let offsets = known.offsets.as_slice()[index].as_slice();
        let (own, more) = rest.split_at(wants.len());
        let teller = Teller {
            alloc,
            path: &module.path,
            lines: &module.lines,
        };
        all.push(teller.ends(wants, offsets, own)?)?;
        rest = more;
    }
    Ok(all)
}
