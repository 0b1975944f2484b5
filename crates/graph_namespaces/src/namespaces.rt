//! The entries of the namespace objects of a graph.

ghost use Rattle.std.specs.Prelude.{◌≡◌, ◌<◌, ◌≤◌, length, List, ℕ, IfOk, OnOk};
ghost use Rattle.es6_static_semantics.specs.Graphs.{IsLinked};
ghost use Rattle.module_endings.specs.declared.summary.Summary.{Summary};
ghost use Rattle.module_endings.specs.Ends.{AreOutcomes, all_wants};
ghost use Rattle.module_lowering.specs.Namespaces.{AreNamespaces};
ghost use Rattle.graph_namespaces.specs.Entries.{AddsNamespace, AreSharedOut};

use crate::asked::asked_of;
use crate::entries::entries_of;
use crate::hosts::names_of;
use es_outside::HostNames;
use es6_ast::Graph;
use module_endings::{Outcome, Place, Summary, outcomes};
use module_lowering::NamespaceEntries;
use module_summaries::{Declares, summaries_of};
use sqlite_items::Items;
use std::alloc::{AllocError, Global};

/// For each module of a linked graph, in order, what its namespace object has: the names that it exports, by `export *` too, that end
/// at one binding of a module, in the order of their code units, each with that binding.
pub fn namespaces_of<D: Declares>(
    alloc: Global,
    graph: &Graph,
    hosts: &HostNames,
) -> Result<Items<NamespaceEntries>, AllocError>
    requires { IsLinked graph.now hosts.now }
    ensures { IfOk result (λ all. AreNamespaces graph.now hosts.now 0 graph.now.modules all) }
{
    // That no two hosts have one name is known of all `HostNames`.
    let _count = hosts.len();
    let names = names_of(alloc, hosts)?;
    let mut known = summaries_of::<D>(alloc, graph.modules.as_slice())?;
    let count = known.len();
    let asked = asked_of(alloc, known.as_slice())?;
    known.append(asked)?;
    let all = outcomes(alloc, known.as_slice(), names.as_slice())?;
    let namespaces = shared_out(alloc, count, known.as_slice(), all.as_slice())?;
    Ok(namespaces)
}

/// Gives each module the entries of the names that were asked of it. The first summaries, so many, ask nothing for a namespace.
fn shared_out(
    alloc: Global,
    count: usize,
    asked: &[Summary],
    outcomes: &[Outcome],
) -> Result<Items<NamespaceEntries>, AllocError>
    requires { length outcomes.now ≡ length (all_wants asked.now) }
    ensures { IfOk result (λ all. (modules : List Summary) (hosts : List (List ℕ)) → AreOutcomes modules hosts (all_wants asked.now) outcomes.now → AreSharedOut modules hosts count asked.now all) }
{
    let mut all = Items::new(alloc);
    let mut rest = outcomes;
    for (index, summary) in asked.iter().enumerate() {
        let (own, more) = rest.split_at(summary.wants.len());
        add_namespace(alloc, count, index, summary.wants.as_slice(), own, &mut all)?;
        rest = more;
    }
    Ok(all)
}

/// Adds the entries of these names, unless the first summaries, so many, have the one with this number.
fn add_namespace(
    alloc: Global,
    count: usize,
    index: usize,
    names: &[Place],
    outcomes: &[Outcome],
    all: &mut Items<NamespaceEntries>,
) -> Result<(), AllocError>
    requires { length names.now ≡ length outcomes.now }
    ensures skipped { OnOk result (index < count → all.new ≡ all.old) }
    ensures added { OnOk result (count ≤ index → AddsNamespace names.now outcomes.now all.old all.new) }
{
    if index < count {
        return Ok(());
    }
    let entries = entries_of(alloc, names, outcomes)?;
    all.push(NamespaceEntries { entries })?;
    Ok(())
}
