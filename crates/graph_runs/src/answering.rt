//! The run of a graph whose hosts all answer undefined.

ghost use Rattle.std.specs.Prelude.{◌≤◌, length, IfOk};
ghost use Rattle.answered_runs.specs.Answers.{IsAnswered};
ghost use Rattle.module_resolution.specs.Summaries.{AreSummaries};
ghost use Rattle.source_meaning.specs.Step.{run6};

use answered_runs::{Answered, run_answered};
use es6_ast::Graph;
use eval6_step::Run6;
use module_endings::Summary;
use module_summaries::{Declares, summaries_of};
use source_takers::Taker;
use source_works::{Holds, Pending};
use std::alloc::{AllocError, Global};

/// Runs a linked graph for at most so many steps, with undefined as every answer: its events, and how it ended, if it did.
pub fn graph_answered<D: Declares>(
    alloc: Global,
    graph: &Graph,
    steps: u64,
) -> Result<Answered, AllocError>
    requires few { length graph.now.modules ≤ 1024 }
    ensures { IfOk result (λ seen. IsAnswered (run6 graph.now) steps seen.events seen.over) }
{
    let known = summaries_of::<D>(alloc, graph.modules.as_slice())?;
    known_answered(alloc, graph, known.as_slice(), steps)
}

/// The same where the modules have these summaries.
fn known_answered<'a>(
    alloc: Global,
    graph: &'a Graph,
    known: &'a [Summary],
    steps: u64,
) -> Result<Answered, AllocError>
    requires known { AreSummaries graph.now.modules known.now }
    ensures { IfOk result (λ seen. IsAnswered (run6 graph.now) steps seen.events seen.over) }
{
    answered_held::<'a, Taker<'a>>(alloc, graph, known, steps)
}

/// The same, whatever holds pending work: no function with a bound names both, since that is dear to compare.
fn answered_held<'a, H: Holds<'a>>(
    alloc: Global,
    graph: &'a Graph,
    known: &'a [Summary],
    steps: u64,
) -> Result<Answered, AllocError>
    requires known { AreSummaries graph.now.modules known.now }
    ensures { IfOk result (λ seen. IsAnswered (run6 graph.now) steps seen.events seen.over) }
{
    let mut run: Run6<'a, Pending<H>> = Run6::new(alloc, graph, known)?;
    run_answered(alloc, &mut run, steps)
}
