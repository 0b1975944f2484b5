//! The run of a script (ECMA-262, 5.1 edition).

ghost use Rattle.std.specs.Prelude.{◌≡◌, IfOk, OnErr, OnOk};

use crate::stage::{Stage, stage_behind, status_of};
use core_ast::Core;
use core_moves::reply_of;
use core_state::{Completion, Control, State};
use es_outside::{HostNames, Reply, Step};
use program_runs::ProgramRun;
use script_rows::{ScriptRows, ScriptState, script_state};
use std::alloc::{AllocError, Global};
use std::mem;

/// The run of a script, read as this core, under the replies of hosts with given names. Steps are those of the machine of `run5`.
pub struct Run5<'a> {
    rows: ScriptRows<'a>,
    state: ScriptState<'a>,
    stage: Stage<'a>,
}

impl Drop for Run5<'_> {
    fn drop(self) {
        let Run5 {
            rows: _,
            state,
            stage: _,
        } = self;
        let State {
            heap: _,
            records: _,
            closures: _,
            context: _,
            callers: _,
            ahead: _,
            store: _,
        } = state;
    }
}

impl<'a> Run5<'a> {
    ghost use Rattle.script_core.specs.Meaning.{script_start, script_step};
    ghost use Rattle.es_outside.specs.declared.host.Reply.{Reply};
    ghost use Rattle.program_runs.specs.Positions.{At, Awaits, IsAwaiting, Steps};
    ghost use Rattle.eval5_step.specs.Stages.{Follows, ScriptConfiguration, status_of};
    ghost use Rattle.eval5_step.specs.Runs.{Stays, machine_of, position_of, stage_of};

    /// A script at its start.
    ///
    /// # Errors
    ///
    /// Only want of memory, or of numbers of 32 bits for names.
    pub fn new(alloc: Global, core: &'a Core, hosts: &HostNames) -> Result<Run5<'a>, AllocError>
        ensures machine { IfOk result (λ run. machine_of run ≡ script_step core.now) }
        ensures start { IfOk result (λ run. position_of run ≡ At (script_start hosts.now core.now)) }
    {
        let state = script_state(alloc, core, hosts)?;
        Ok(Run5 {
            rows: ScriptRows { core, alloc },
            state,
            stage: Stage::Goes(Control::Hand(Completion::Done)),
        })
    }

    /// Does one step, and answers where that leads. While a reply is awaited, and when the run is over, it answers the same again, and
    /// nothing changes. When there was no memory it answers so from then on.
    pub fn step(&mut self) -> Step
        ensures steps { (state : ScriptConfiguration) → position_of self.old ≡ At state
            → Steps result (position_of self.new) (machine_of self.old state) }
        ensures stays { Stays self.old self.new }
        ensures status { result ≡ status_of (stage_of self.new) }
        ensures machine { machine_of self.new ≡ machine_of self.old }
    {
        match self.advance() {
            Ok(status) => status,
            Err(_) => Step::OutOfMemory,
        }
    }

    /// The same, where an error is want of memory.
    fn advance(&mut self) -> Result<Step, AllocError>
        ensures steps { OnOk result (Follows self.old.rows.core.now self.old.stage self.old.state self.new.stage self.new.state) }
        ensures status { IfOk result (λ status. status ≡ status_of self.new.stage) }
        ensures lost { OnErr result (self.new.stage ≡ Stage.Lost) }
        ensures rows { self.new.rows ≡ self.old.rows }
    {
        let stage = mem::replace(&mut self.stage, Stage::Lost);
        let stage = stage_behind(&self.rows, stage, &mut self.state)?;
        let status = status_of(self.rows.alloc, &stage)?;
        self.stage = stage;
        Ok(status)
    }

    /// Hands in the reply that is awaited, which counts as no step.
    pub fn resume_with(&mut self, reply: Reply) -> Result<(), AllocError>
        requires { IsAwaiting (position_of self.old) }
        ensures resumes { (follow : Reply → ScriptConfiguration) → position_of self.old ≡ Awaits follow
            → OnOk result (position_of self.new ≡ At (follow reply)) }
        ensures unchanged { OnErr result (self.new ≡ self.old) }
        ensures machine { machine_of self.new ≡ machine_of self.old }
    {
        let completion = reply_of(self.rows.alloc, &reply)?;
        self.stage = Stage::Goes(Control::Hand(completion));
        Ok(())
    }
}

impl<'a> ProgramRun for Run5<'a> {
    ghost use Rattle.eval5_step.specs.Runs.{machine_of, position_of};
    ghost use Rattle.eval5_step.specs.Stages.{ScriptConfiguration};

    ghost State = { ScriptConfiguration };

    ghost machine = { machine_of };

    ghost position = { position_of };

    fn step(&mut self) -> Step {
        Run5::step(self)
    }

    fn resume_with(&mut self, reply: Reply) -> Result<(), AllocError> {
        Run5::resume_with(self, reply)
    }
}
