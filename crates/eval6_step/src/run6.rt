//! The run of a linked graph of modules (ECMA-262, 6th edition, 15.2.1.16).

ghost use Rattle.std.specs.Prelude.{◌≡◌, IfOk, OnErr, OnOk};

use crate::stage::stage_behind;
use es_outside::{Reply, Step};
use es6_ast::Graph;
use module_endings::Summary;
use program_runs::ProgramRun;
use run_parts::{Stage, status_of};
use source_calls::reply_of;
use source_modules::start;
use source_state::{Completion, Control, State};
use source_step::StepWork;
use std::alloc::{AllocError, Global};
use std::mem;

/// The run of a graph under the replies of hosts. Steps are those of the machine of `run6`.
pub struct Run6<'a, W: Drop> {
    alloc: Global,
    state: State<'a, W>,
    stage: Stage<Control<'a>>,
}

impl<W: Drop> Drop for Run6<'_, W> {
    fn drop(self) {
        let Run6 {
            alloc: _,
            state,
            stage: _,
        } = self;
        let State {
            heap: _,
            records: _,
            closures: _,
            generators: _,
            namespaces: _,
            templates: _,
            statics: _,
            context: _,
            callers: _,
            due: _,
        } = state;
    }
}

impl<'a, W: StepWork<'a>> Run6<'a, W> {
    ghost use Rattle.es_outside.specs.declared.host.Reply.{Reply};
    ghost use Rattle.module_resolution.specs.Summaries.{AreSummaries};
    ghost use Rattle.program_runs.specs.Positions.{At, Awaits, IsAwaiting, Steps};
    ghost use Rattle.run_parts.specs.Stages.{status_of};
    ghost use Rattle.source_meaning.specs.Modules.{start};
    ghost use Rattle.source_meaning.specs.State.{Configuration};
    ghost use Rattle.source_meaning.specs.Step.{step};
    ghost use Rattle.eval6_step.specs.Stages.{Follows};
    ghost use Rattle.eval6_step.specs.Runs.{Stays, position_of, stage_of};

    /// A graph at its start: all modules are instantiated, and none is evaluated. `known` has the summaries of its modules.
    ///
    /// # Errors
    ///
    /// Only want of memory, or of numbers of 32 bits for modules.
    pub fn new(
        alloc: Global,
        graph: &'a Graph,
        known: &'a [Summary],
    ) -> Result<Run6<'a, W>, AllocError>
        requires { AreSummaries graph.now.modules known.now }
        ensures { IfOk result (λ run. position_of W.seen run ≡ At (start graph.now)) }
    {
        let state = start(alloc, graph, known)?;
        Ok(Run6 {
            alloc,
            state,
            stage: Stage::Goes(Control::Hand(Completion::Done)),
        })
    }

    /// Does one step, and answers where that leads. While a reply is awaited, and when the run is over, it answers the same again, and
    /// nothing changes. When there was no memory it answers so from then on.
    pub fn step(&mut self) -> Step
        ensures steps { (state : Configuration) → position_of W.seen self.old ≡ At state
            → Steps result (position_of W.seen self.new) (step state) }
        ensures stays { Stays self.old self.new }
        ensures status { result ≡ status_of (stage_of self.new) }
    {
        match self.advance() {
            Ok(status) => status,
            Err(_) => Step::OutOfMemory,
        }
    }

    /// The same, where an error is want of memory.
    fn advance(&mut self) -> Result<Step, AllocError>
        ensures steps { OnOk result (Follows W.seen self.old.stage self.old.state self.new.stage self.new.state) }
        ensures status { IfOk result (λ status. status ≡ status_of self.new.stage) }
        ensures lost { OnErr result (self.new.stage ≡ Stage.Lost) }
    {
        let stage = mem::replace(&mut self.stage, Stage::Lost);
        let stage = stage_behind(self.alloc, stage, &mut self.state)?;
        let status = status_of(self.alloc, &stage)?;
        self.stage = stage;
        Ok(status)
    }

    /// Hands in the reply that is awaited, which counts as no step.
    pub fn resume_with(&mut self, reply: Reply) -> Result<(), AllocError>
        requires { IsAwaiting (position_of W.seen self.old) }
        ensures resumes { (follow : Reply → Configuration) → position_of W.seen self.old ≡ Awaits follow
            → OnOk result (position_of W.seen self.new ≡ At (follow reply)) }
        ensures unchanged { OnErr result (self.new ≡ self.old) }
    {
        let completion = reply_of(self.alloc, &reply)?;
        self.stage = Stage::Goes(Control::Hand(completion));
        Ok(())
    }
}

impl<'a, W: StepWork<'a>> ProgramRun for Run6<'a, W> {
    ghost use Rattle.source_meaning.specs.State.{Configuration};
    ghost use Rattle.source_meaning.specs.Step.{step};
    ghost use Rattle.eval6_step.specs.Runs.{position_of};

    ghost State = { Configuration };

    ghost machine = { λ run. step };

    ghost position = { position_of W.seen };

    fn step(&mut self) -> Step {
        Run6::step(self)
    }

    fn resume_with(&mut self, reply: Reply) -> Result<(), AllocError> {
        Run6::resume_with(self, reply)
    }
}
