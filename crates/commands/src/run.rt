//! The command `run`.

ghost use Rattle.std.specs.Prelude.{◌≡◌, ◌≤◌};
ghost use Rattle.es_outside.specs.HostList.{entries, names};
ghost use Rattle.command_words.specs.Words.{run};
ghost use Rattle.program_runs.specs.Around.{Keeps, around, hosted, output};
ghost use Rattle.commands.specs.Outcome.{written_of};
ghost use Rattle.commands.specs.Parts.{IsCommandOutcome, IsToldOfGraph};
ghost use Rattle.module_linker.specs.graph_checks.Runs.{RunsGraph};

use crate::command::refuse;
use crate::ending::ended;
use crate::fault::Fault;
use crate::status::Status;
use es_outside::{Files, Host, Hosts, Sink};
use graph_refusals::GraphFault;
use module_linker::graph_checks::run_checked;
use program_runs::RunEnd;
use std::alloc::Global;

/// Runs the graph of the module with this path, if it passes every check, for at most so many steps.
pub fn run<F: Files, S: Sink, E: Sink>(
    alloc: Global,
    path: &str,
    steps: u64,
    files: &mut F,
    hosts: Hosts,
    out: &mut S,
    err: &mut E,
) -> (Status, Hosts)
    ensures outcome { let o = written_of S.bytes S.faults out.old out.new in
        let e = written_of E.bytes E.faults err.old err.new in
        IsCommandOutcome (names hosts) (run path.now steps) (F.files files.old) (F.faults files.old) (F.faults files.new)
        (hosted (entries hosts) (λ b. (⟦<dyn Host as Host>⟧ b.vtable).talk b.value) (λ b. (⟦<dyn Host as Host>⟧ b.vtable).faults b.value))
        (hosted (entries result.1) (λ b. (⟦<dyn Host as Host>⟧ b.vtable).talk b.value) (λ b. (⟦<dyn Host as Host>⟧ b.vtable).faults b.value)) o e result.0 }
    ensures kept { F.files files.new ≡ F.files files.old }
    ensures no_fall { (F.faults files.old ≤ F.faults files.new)
        × (S.faults out.old ≤ S.faults out.new) × (E.faults err.old ≤ E.faults err.new) }
{
    let (made, back) = graph_run(alloc, path, steps, files, hosts, out);
    let status = told(alloc, path, made, &back, err);
    (status, back)
}

/// Runs the graph of an entry, or gives its first fault, and the hosts back.
fn graph_run<F: Files, S: Sink>(
    alloc: Global,
    path: &str,
    steps: u64,
    files: &mut F,
    hosts: Hosts,
    out: &mut S,
) -> (Result<RunEnd, GraphFault>, Hosts)
    ensures ends { RunsGraph (names hosts) (F.files files.old) (F.faults files.old) (F.faults files.new) path.now steps
        (around (hosted (entries hosts) (λ b. (⟦<dyn Host as Host>⟧ b.vtable).talk b.value) (λ b. (⟦<dyn Host as Host>⟧ b.vtable).faults b.value)) (output S.bytes S.faults out.old))
        (around (hosted (entries result.1) (λ b. (⟦<dyn Host as Host>⟧ b.vtable).talk b.value) (λ b. (⟦<dyn Host as Host>⟧ b.vtable).faults b.value)) (output S.bytes S.faults out.new)) result.0 }
    ensures keeps { Keeps
        (around (hosted (entries hosts) (λ b. (⟦<dyn Host as Host>⟧ b.vtable).talk b.value) (λ b. (⟦<dyn Host as Host>⟧ b.vtable).faults b.value)) (output S.bytes S.faults out.old))
        (around (hosted (entries result.1) (λ b. (⟦<dyn Host as Host>⟧ b.vtable).talk b.value) (λ b. (⟦<dyn Host as Host>⟧ b.vtable).faults b.value)) (output S.bytes S.faults out.new)) }
    ensures kept { F.files files.new ≡ F.files files.old }
    ensures no_fall { F.faults files.old ≤ F.faults files.new }
{
    match hosts.names(alloc) {
        Ok(host_names) => run_checked(alloc, files, path, &host_names, steps, hosts, out),
        Err(_) => (Err(GraphFault::OutOfMemory), hosts),
    }
}

/// The status of a graph's run, or the line that says why it wasn't run, or which host failed.
fn told<E: Sink>(
    alloc: Global,
    path: &str,
    made: Result<RunEnd, GraphFault>,
    hosts: &Hosts,
    err: &mut E,
) -> Status
    ensures told { IsToldOfGraph path.now (names hosts.now) (written_of E.bytes E.faults err.old err.new) made result }
    ensures no_fall { E.faults err.old ≤ E.faults err.new }
{
    match made {
        Ok(end) => ended(alloc, end, hosts, err),
        Err(GraphFault::Refused(refusal)) => refuse(alloc, path, Fault::InGraph(refusal), err),
        Err(GraphFault::OutOfMemory) => Status::OutOfMemory,
    }
}
