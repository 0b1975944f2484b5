//! The command `sample`.

ghost use Rattle.std.specs.Prelude.{◌≡◌, ◌≤◌, IfOk, MatchResult};
ghost use Rattle.commands.specs.Outcome.{IsSampled, print_alone, written_of};
ghost use Rattle.commands.specs.Parts.{FitsSample, IsSampleOutcome, IsSampleTold, IsSampledWith};

use crate::command::{fail, refuse, report};
use crate::fault::{CommandFault, Fault};
use crate::status::Status;
use es_outside::{HostNames, Sink};
use es6_ast::Graph;
use module_linker::UsesGraph;
use module_linker::graph_checks::checked;
use pipeline::{Declared, compile};
use sample_graph::sample as sample_files;
use sample_runs::{Comparison, compared, sample_line};
use std::alloc::{AllocError, Global};
use sure_outside::SureFiles;

/// What is seen of the run of a graph beside that of the script that it is compiled to, and the line that says so.
#[derive(Drop)]
pub(crate) struct Sampled {
    pub(crate) comparison: Comparison,
    pub(crate) line: Vec<u8>,
}

/// The run of a linked graph beside that of the script that it is compiled to.
struct BothRuns;

impl UsesGraph for BothRuns {
    ghost use Rattle.commands.specs.Parts.{IsComparedGraph};

    type Made = Comparison;

    ghost makes = { λ graph hosts comparison. IsComparedGraph graph hosts comparison };

    fn made(alloc: Global, graph: &Graph, hosts: &HostNames) -> Result<Comparison, AllocError> {
        let script = compile(alloc, graph, hosts)?;
        compared::<Declared>(alloc, graph, hosts, script.as_slice())
    }
}

/// Makes the sample graph with so many modules beside its entry, compiles it, runs both, and writes whether they had the same events,
/// or how they ended otherwise. The line is made before any of it is written.
pub fn sample<S: Sink, E: Sink>(alloc: Global, count: u64, out: &mut S, err: &mut E) -> Status
    requires least { 1 ≤ count }
    requires most { count ≤ 1000 }
    ensures outcome { let o = written_of S.bytes S.faults out.old out.new in
        let e = written_of E.bytes E.faults err.old err.new in
        IsSampleOutcome count o e result }
    ensures no_fall { (S.faults out.old ≤ S.faults out.new) × (E.faults err.old ≤ E.faults err.new) }
{
    match run_both(alloc, count) {
        Ok(sampled) => told(alloc, sampled, out, err),
        Err(fault) => fail(alloc, "sample", fault, err),
    }
}

/// The line of the two runs of the sample graph, or why there are none.
fn run_both(alloc: Global, count: u64) -> Result<Sampled, CommandFault>
    requires least { 1 ≤ count }
    requires most { count ≤ 1000 }
    ensures { MatchResult result (IsSampledWith count) (FitsSample count) }
{
    let comparison = compared_sample(alloc, count)?;
    let line = sample_line(alloc, count, &comparison)?;
    Ok(Sampled { comparison, line })
}

/// What is seen of the two runs of the sample graph.
fn compared_sample(alloc: Global, count: u64) -> Result<Comparison, CommandFault>
    requires least { 1 ≤ count }
    requires most { count ≤ 1000 }
    ensures { MatchResult result (IsSampled count) (FitsSample count) }
{
    let mut files = sample_files(alloc, count)?;
    let hosts = print_alone(alloc)?;
    match checked::<SureFiles, BothRuns>(alloc, &mut files, "main.js", &hosts) {
        Ok(comparison) => Ok(comparison),
        Err(fault) => Err(fault.into()),
    }
}

/// The one host of the sample graph.
fn print_alone(alloc: Global) -> Result<HostNames, AllocError>
    ensures { IfOk result (λ hosts. hosts ≡ print_alone) }
{
    let mut names = Vec::new(alloc);
    names.push(String::from_str(alloc, "print")?)?;
    match HostNames::of(names) {
        Ok(hosts) => Ok(hosts),
        Err(_) => unreachable!(),
    }
}

/// Writes the line of both runs, or why there is none.
fn told<S: Sink, E: Sink>(alloc: Global, sampled: Sampled, out: &mut S, err: &mut E) -> Status
    ensures told { let o = written_of S.bytes S.faults out.old out.new in
        let e = written_of E.bytes E.faults err.old err.new in
        IsSampleTold sampled o e result }
    ensures no_fall { (S.faults out.old ≤ S.faults out.new) × (E.faults err.old ≤ E.faults err.new) }
{
    let Sampled { comparison, line } = sampled;
    match comparison {
        Comparison::Same { .. } => report(out, line.as_slice(), Status::Done),
        Comparison::Threw(_) => report(out, line.as_slice(), Status::Threw),
        Comparison::Left { .. } => report(out, line.as_slice(), Status::Left),
        Comparison::Spent => report(out, line.as_slice(), Status::StepsSpent),
        Comparison::Unlike => refuse(alloc, "sample", Fault::Unlike, err),
        Comparison::Unread(fault) => refuse(alloc, "sample", Fault::InScript(fault), err),
    }
}
