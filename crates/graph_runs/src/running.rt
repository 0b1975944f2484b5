//! The run of a graph.

ghost use Rattle.std.specs.Prelude.{◌≡◌, ◌≤◌, length, IfOk};
ghost use Rattle.es_outside.specs.HostList.{entries, names};
ghost use Rattle.es_outside.specs.Refusals.{AreHostNames};
ghost use Rattle.program_runs.specs.Around.{Keeps, around, hosted, output};
ghost use Rattle.program_runs.specs.Outcomes.{IsOutcome, behaviour};
ghost use Rattle.program_runs.specs.Positions.{At, IsAt, Next};
ghost use Rattle.source_meaning.specs.Step.{run6};
ghost use Rattle.graph_runs.specs.Sites.{sites_of};

use crate::graph_run::GraphRun;
use crate::places::GraphPlaces;
use es_outside::{Host, Hosts, Sink};
use es6_ast::Graph;
use module_summaries::{Declares, summaries_of};
use program_runs::{Places, ProgramRun, RunEnd, run_out_with};
use std::alloc::{AllocError, Global};

/// Runs a linked graph for at most so many steps: writes the line of each event, asks the event's host, and writes the last line.
pub fn run_graph<D: Declares, S: Sink>(
    alloc: Global,
    graph: &Graph,
    steps: u64,
    hosts: Hosts,
    out: &mut S,
) -> (RunEnd, Hosts)
    requires few { length graph.now.modules ≤ 1024 }
    requires names { AreHostNames (names hosts) }
    ensures outcome { IsOutcome (run6 graph.now) steps (sites_of graph.now)
        (around (hosted (entries hosts) (λ b. (⟦<dyn Host as Host>⟧ b.vtable).talk b.value) (λ b. (⟦<dyn Host as Host>⟧ b.vtable).faults b.value)) (output S.bytes S.faults out.old))
        (around (hosted (entries result.1) (λ b. (⟦<dyn Host as Host>⟧ b.vtable).talk b.value) (λ b. (⟦<dyn Host as Host>⟧ b.vtable).faults b.value)) (output S.bytes S.faults out.new)) result.0 }
    ensures keeps { Keeps
        (around (hosted (entries hosts) (λ b. (⟦<dyn Host as Host>⟧ b.vtable).talk b.value) (λ b. (⟦<dyn Host as Host>⟧ b.vtable).faults b.value)) (output S.bytes S.faults out.old))
        (around (hosted (entries result.1) (λ b. (⟦<dyn Host as Host>⟧ b.vtable).talk b.value) (λ b. (⟦<dyn Host as Host>⟧ b.vtable).faults b.value)) (output S.bytes S.faults out.new)) }
{
    match summaries_of::<D>(alloc, graph.modules.as_slice()) {
        Ok(known) => {
            let places = GraphPlaces { graph };
            let begun = GraphRun::new(alloc, graph, known.as_slice());
            run_begun(alloc, begun, steps, &places, hosts, out)
        }
        Err(_) => (RunEnd::OutOfMemory, hosts),
    }
}

/// Runs a program, if there was memory to begin it. A bound that names a lifetime can't stand beside hosts, so what is pending isn't
/// told here.
fn run_begun<R: ProgramRun + Drop, P: Places, S: Sink>(
    alloc: Global,
    begun: Result<R, AllocError>,
    steps: u64,
    places: &P,
    hosts: Hosts,
    out: &mut S,
) -> (RunEnd, Hosts)
    requires { IfOk begun (λ run. IsAt (R.position run)) }
    ensures outcome { (machine : R.State → Next R.State) (start : R.State) → ((run : R) → R.machine run ≡ machine)
        → IfOk begun (λ run. R.position run ≡ At start) → IsOutcome (behaviour machine start) steps (P.sites places.now)
        (around (hosted (entries hosts) (λ b. (⟦<dyn Host as Host>⟧ b.vtable).talk b.value) (λ b. (⟦<dyn Host as Host>⟧ b.vtable).faults b.value)) (output S.bytes S.faults out.old))
        (around (hosted (entries result.1) (λ b. (⟦<dyn Host as Host>⟧ b.vtable).talk b.value) (λ b. (⟦<dyn Host as Host>⟧ b.vtable).faults b.value)) (output S.bytes S.faults out.new)) result.0 }
    ensures keeps { Keeps
        (around (hosted (entries hosts) (λ b. (⟦<dyn Host as Host>⟧ b.vtable).talk b.value) (λ b. (⟦<dyn Host as Host>⟧ b.vtable).faults b.value)) (output S.bytes S.faults out.old))
        (around (hosted (entries result.1) (λ b. (⟦<dyn Host as Host>⟧ b.vtable).talk b.value) (λ b. (⟦<dyn Host as Host>⟧ b.vtable).faults b.value)) (output S.bytes S.faults out.new)) }
{
    match begun {
        Ok(mut run) => run_out_with(alloc, &mut run, steps, places, hosts, out),
        Err(_) => (RunEnd::OutOfMemory, hosts),
    }
}
