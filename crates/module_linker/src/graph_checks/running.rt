//! The run of a graph that passes every check.

ghost use Rattle.std.specs.Prelude.{◌≡◌, ◌≤◌};
ghost use Rattle.es_outside.specs.HostList.{entries, names};
ghost use Rattle.es_outside.specs.Refusals.{AreHostNames};
ghost use Rattle.es6_static_semantics.specs.Graphs.{IsLoaded};
ghost use Rattle.program_runs.specs.Around.{Keeps, around, hosted, output};
ghost use Rattle.module_linker.specs.graph_checks.Runs.{RunsGraph, RunsLoaded};

use crate::graph_checks::faults::{told_link, told_load};
use crate::linking::{Declared, link};
use crate::loading::load;
use es_outside::{Files, Host, HostNames, Hosts, Sink};
use es6_ast::Graph;
use graph_refusals::GraphFault;
use graph_runs::{RunEnd, run_graph};
use std::alloc::Global;

/// Loads the graph of the entry, links it for hosts with these names, and runs it with the hosts for at most so many steps, where it
/// passes every check; or gives its first fault. The hosts are given back.
pub fn run_checked<F: Files, S: Sink>(
    alloc: Global,
    files: &mut F,
    entry: &str,
    host_names: &HostNames,
    steps: u64,
    hosts: Hosts,
    out: &mut S,
) -> (Result<RunEnd, GraphFault>, Hosts)
    requires { AreHostNames (names hosts) }
    ensures ends { RunsGraph host_names.now (F.files files.old) (F.faults files.old) (F.faults files.new) entry.now steps
        (around (hosted (entries hosts) (λ b. (⟦<dyn Host as Host>⟧ b.vtable).talk b.value) (λ b. (⟦<dyn Host as Host>⟧ b.vtable).faults b.value)) (output S.bytes S.faults out.old))
        (around (hosted (entries result.1) (λ b. (⟦<dyn Host as Host>⟧ b.vtable).talk b.value) (λ b. (⟦<dyn Host as Host>⟧ b.vtable).faults b.value)) (output S.bytes S.faults out.new)) result.0 }
    ensures keeps { Keeps
        (around (hosted (entries hosts) (λ b. (⟦<dyn Host as Host>⟧ b.vtable).talk b.value) (λ b. (⟦<dyn Host as Host>⟧ b.vtable).faults b.value)) (output S.bytes S.faults out.old))
        (around (hosted (entries result.1) (λ b. (⟦<dyn Host as Host>⟧ b.vtable).talk b.value) (λ b. (⟦<dyn Host as Host>⟧ b.vtable).faults b.value)) (output S.bytes S.faults out.new)) }
    ensures kept { F.files files.new ≡ F.files files.old }
    ensures no_fall { F.faults files.old ≤ F.faults files.new }
{
    match load(alloc, files, entry) {
        Ok(graph) => run_loaded(alloc, graph, host_names, steps, hosts, out),
        Err(fault) => (Err(told_load(alloc, entry, fault)), hosts),
    }
}

/// Links a graph, runs it, and lets it go.
fn run_loaded<S: Sink>(
    alloc: Global,
    graph: Graph,
    host_names: &HostNames,
    steps: u64,
    hosts: Hosts,
    out: &mut S,
) -> (Result<RunEnd, GraphFault>, Hosts)
    requires { IsLoaded graph }
    ensures ends { RunsLoaded graph host_names.now steps
        (around (hosted (entries hosts) (λ b. (⟦<dyn Host as Host>⟧ b.vtable).talk b.value) (λ b. (⟦<dyn Host as Host>⟧ b.vtable).faults b.value)) (output S.bytes S.faults out.old))
        (around (hosted (entries result.1) (λ b. (⟦<dyn Host as Host>⟧ b.vtable).talk b.value) (λ b. (⟦<dyn Host as Host>⟧ b.vtable).faults b.value)) (output S.bytes S.faults out.new)) result.0 }
    ensures keeps { Keeps
        (around (hosted (entries hosts) (λ b. (⟦<dyn Host as Host>⟧ b.vtable).talk b.value) (λ b. (⟦<dyn Host as Host>⟧ b.vtable).faults b.value)) (output S.bytes S.faults out.old))
        (around (hosted (entries result.1) (λ b. (⟦<dyn Host as Host>⟧ b.vtable).talk b.value) (λ b. (⟦<dyn Host as Host>⟧ b.vtable).faults b.value)) (output S.bytes S.faults out.new)) }
{
    let mut graph = graph;
    match link(alloc, &mut graph, host_names) {
        Ok(()) => {
            let (end, back) = run_graph::<Declared, S>(alloc, &graph, steps, hosts, out);
            (Ok(end), back)
        }
        Err(fault) => (Err(told_link(fault)), hosts),
    }
}
