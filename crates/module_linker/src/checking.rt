//! All checks of an entry's graph, and what is made of one that passes.

ghost use Rattle.std.specs.Prelude.{◌≡◌, ◌≤◌, IfErr, IfOk};
ghost use Rattle.es_outside.specs.Counts.{CountRose};
ghost use Rattle.es6_static_semantics.specs.Graphs.{IsLinked, IsLoaded};
ghost use Rattle.module_linker.specs.Checking.{HasCheckFault, HasFailedRead, IsMadeLinked, IsMadeOf};
ghost use Rattle.module_links.specs.Links.{IsRefusal};
ghost use Rattle.module_links.specs.declared.fault.LinkFault.TheVariants.{OutOfMemory};

use crate::linking::link;
use crate::loading::load;
use crate::module_checks::ModuleFault;
use es_outside::{Files, HostNames};
use es6_ast::Graph;
use module_links::LinkFault;
use module_loading::LoadFault;
use std::alloc::{AllocError, Global};

/// The first check that a graph doesn't pass, where it is loaded or, after that, where it is linked.
#[derive(Debug, Drop)]
pub enum CheckFault {
    Load(LoadFault<ModuleFault>),
    Link(LinkFault),
}

/// What is made of a linked graph. Only this crate owns graphs, so it is handed what works on them.
pub trait UsesGraph {
    ghost use Rattle.std.specs.Prelude.{ℕ, List, IfOk};
    ghost use Rattle.es6_ast.specs.declared.graph.Graph.{Graph};
    ghost use Rattle.es6_static_semantics.specs.Graphs.{IsLinked};

    type Made: Drop;

    /// That this is made of the graph, where the program has these hosts.
    ghost makes: { Graph → List (List ℕ) → Self.Made → Type 0 };

    fn made(alloc: Global, graph: &Graph, hosts: &HostNames) -> Result<Self::Made, AllocError>
        requires linked { IsLinked graph.now hosts.now }
        ensures { IfOk result (λ made. makes graph.now hosts.now made) };
}

/// Loads and links the graph of an entry, makes something of it, and lets it go.
pub fn check<F: Files, U: UsesGraph>(
    alloc: Global,
    files: &mut F,
    entry: &str,
    hosts: &HostNames,
) -> Result<U::Made, CheckFault>
    ensures made { IfOk result (λ made. IsMadeOf U.makes (F.files files.old) entry.now hosts.now made) }
    ensures fault { IfErr result (λ fault. HasCheckFault (F.files files.old) entry.now hosts.now fault) }
    ensures unchanged { F.files files.new ≡ F.files files.old }
    ensures no_fall { F.faults files.old ≤ F.faults files.new }
    ensures failed { HasFailedRead result → CountRose (F.faults files.old) (F.faults files.new) }
{
    match load(alloc, files, entry) {
        Ok(graph) => match used::<U>(alloc, graph, hosts) {
            Ok(made) => Ok(made),
            Err(fault) => Err(CheckFault::Link(fault)),
        },
        Err(fault) => Err(CheckFault::Load(fault)),
    }
}

/// Links a graph, makes something of it, and lets it go.
fn used<U: UsesGraph>(alloc: Global, graph: Graph, hosts: &HostNames) -> Result<U::Made, LinkFault>
    requires { IsLoaded graph }
    ensures made { IfOk result (λ made. IsMadeLinked U.makes graph hosts.now made) }
    ensures fault { IfErr result (λ fault. IsRefusal graph hosts.now fault) }
{
    let mut graph = graph;
    link(alloc, &mut graph, hosts)?;
    made_of::<U>(alloc, &graph, hosts)
}

/// Where it can't be made, memory runs out.
fn made_of<U: UsesGraph>(
    alloc: Global,
    graph: &Graph,
    hosts: &HostNames,
) -> Result<U::Made, LinkFault>
    requires linked { IsLinked graph.now hosts.now }
    ensures made { IfOk result (λ made. U.makes graph.now hosts.now made) }
    ensures fault { IfErr result (λ fault. fault ≡ OutOfMemory) }
{
    match U::made(alloc, graph, hosts) {
        Ok(made) => Ok(made),
        Err(_) => Err(LinkFault::OutOfMemory),
    }
}
