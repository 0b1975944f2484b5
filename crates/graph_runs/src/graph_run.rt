//! The run of a graph, where pending work holds takers. What it does is done by functions that don't know what holds pending work, since that
//! type reaches all kinds of work, and is dear to compare where it is put in for a type parameter below another.

ghost use Rattle.std.specs.Prelude.{◌≡◌, IfOk, OnOk};
ghost use Rattle.es_outside.specs.declared.host.Reply.{Reply};
ghost use Rattle.eval6_step.specs.Runs.{position_of};
ghost use Rattle.module_resolution.specs.Summaries.{AreSummaries};
ghost use Rattle.program_runs.specs.Positions.{At, Awaits, IsAwaiting, Steps};
ghost use Rattle.source_meaning.specs.Modules.{start};
ghost use Rattle.source_meaning.specs.State.{Configuration};
ghost use Rattle.source_meaning.specs.Step.{step};
ghost use Rattle.source_works.specs.Seen.{seen_of};
ghost use Rattle.graph_runs.specs.Stands.{stands};

use es_outside::{Reply, Step};
use es6_ast::Graph;
use eval6_step::Run6;
use module_endings::Summary;
use program_runs::ProgramRun;
use source_takers::Taker;
use source_works::{Holds, Pending};
use std::alloc::{AllocError, Global};

/// The run of a graph.
pub(crate) struct GraphRun<'a> {
    run: Run6<'a, Pending<Taker<'a>>>,
}

impl<'a> Drop for GraphRun<'a> {
    fn drop(self) {
        let GraphRun { run } = self;
        let_go::<'a, Taker<'a>>(run);
    }
}

impl<'a> GraphRun<'a> {
    /// A graph at its start. `known` has the summaries of its modules.
    pub(crate) fn new(
        alloc: Global,
        graph: &'a Graph,
        known: &'a [Summary],
    ) -> Result<GraphRun<'a>, AllocError>
        requires { AreSummaries graph.now.modules known.now }
        ensures { IfOk result (λ it. stands it.run ≡ At (start graph.now)) }
    {
        match begun::<'a, Taker<'a>>(alloc, graph, known) {
            Ok(run) => Ok(GraphRun { run }),
            Err(error) => Err(error),
        }
    }
}

impl<'a> ProgramRun for GraphRun<'a> {
    ghost use Rattle.source_meaning.specs.State.{Configuration};
    ghost use Rattle.source_meaning.specs.Step.{step};
    ghost use Rattle.graph_runs.specs.Stands.{stands};

    ghost State = { Configuration };

    ghost machine = { λ it. step };

    ghost position = { λ it. stands it.run };

    fn step(&mut self) -> Step {
        step_on::<'a, Taker<'a>>(&mut self.run)
    }

    fn resume_with(&mut self, reply: Reply) -> Result<(), AllocError> {
        resume_with::<'a, Taker<'a>>(&mut self.run, reply)
    }
}

fn begun<'a, H: Holds<'a>>(
    alloc: Global,
    graph: &'a Graph,
    known: &'a [Summary],
) -> Result<Run6<'a, Pending<H>>, AllocError>
    requires { AreSummaries graph.now.modules known.now }
    ensures { IfOk result (λ run. position_of (seen_of H.held) run ≡ At (start graph.now)) }
{
    Run6::new(alloc, graph, known)
}

fn step_on<'a, H: Holds<'a>>(run: &mut Run6<'a, Pending<H>>) -> Step
    ensures { (state : Configuration) → position_of (seen_of H.held) run.old ≡ At state
        → Steps result (position_of (seen_of H.held) run.new) (step state) }
{
    Run6::step(run)
}

fn resume_with<'a, H: Holds<'a>>(
    run: &mut Run6<'a, Pending<H>>,
    reply: Reply,
) -> Result<(), AllocError>
    requires { IsAwaiting (position_of (seen_of H.held) run.old) }
    ensures { (follow : Reply → Configuration) → position_of (seen_of H.held) run.old ≡ Awaits follow
        → OnOk result (position_of (seen_of H.held) run.new ≡ At (follow reply)) }
{
    Run6::resume_with(run, reply)
}

fn let_go<'a, H: Holds<'a>>(run: Run6<'a, Pending<H>>) {}
