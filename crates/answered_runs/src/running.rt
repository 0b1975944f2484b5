//! A run, step by step, with its answers.

ghost use Rattle.std.specs.Prelude.{◌≡◌, ◌++◌, ◌∷◌, [], IfOk, OnOk};
ghost use Rattle.es_outside.specs.declared.host.Reply.{Reply};
ghost use Rattle.es_outside.specs.declared.primitive.Primitive.TheVariants.{Undefined};
ghost use Rattle.program_runs.specs.Outcomes.{behaviour};
ghost use Rattle.program_runs.specs.Positions.{At, Awaits, IsAt, IsAwaiting};
ghost use Rattle.answered_runs.specs.Answers.{IsAnswered, Turns};

use es_outside::{Ending, Event, Prim, Reply, Step};
use program_runs::ProgramRun;
use sqlite_items::Items;
use std::alloc::{AllocError, Global};

/// What is seen of a run whose hosts answer undefined: its events, and how it ended, if it did within its steps.
#[derive(Debug, Drop)]
pub struct Answered {
    pub events: Items<Event>,
    pub over: Option<Ending>,
}

/// Runs a program for at most so many steps, with undefined as every answer.
pub fn run_answered<R: ProgramRun>(
    alloc: Global,
    run: &mut R,
    steps: u64,
) -> Result<Answered, AllocError>
    requires { IsAt (R.position run.old) }
    ensures { (start : R.State) → R.position run.old ≡ At start
        → IfOk result (λ seen. IsAnswered (behaviour (R.machine run.old) start) steps seen.events seen.over) }
{
    let mut events = Items::new(alloc);
    let over = go_on(run, steps, &mut events)?;
    Ok(Answered { events, over })
}

/// Does so many steps, or those up to the run's end, and answers that end. The events are added to those before.
fn go_on<R: ProgramRun>(
    run: &mut R,
    steps: u64,
    events: &mut Items<Event>,
) -> Result<Option<Ending>, AllocError>
    requires at { IsAt (R.position run.old) }
    requires none { events.old ≡ [] }
    ensures { (start : R.State) → R.position run.old ≡ At start
        → IfOk result (λ over. IsAnswered (behaviour (R.machine run.old) start) steps events.new over) }
{
    for done in 0..steps {
        match turn(run, events) {
            Ok(None) => {}
            Ok(Some(ending)) => return Ok(Some(ending)),
            Err(error) => return Err(error),
        }
    }
    Ok(None)
}

/// Does one step, and answers the event that it may have.
fn turn<R: ProgramRun>(run: &mut R, events: &mut Items<Event>) -> Result<Option<Ending>, AllocError>
    requires { IsAt (R.position run.old) }
    ensures turns { (state : R.State) → R.position run.old ≡ At state
        → IfOk result (Turns (R.machine run.old state) events.old events.new (R.position run.new)) }
    ensures machine { R.machine run.new ≡ R.machine run.old }
{
    match run.step() {
        Step::Running => Ok(None),
        Step::Asks { event } => {
            answer(run, event, events)?;
            Ok(None)
        }
        Step::Is(ending) => Ok(Some(ending)),
        Step::OutOfMemory => Err(AllocError),
    }
}

/// Notes an event, and answers it.
fn answer<R: ProgramRun>(
    run: &mut R,
    event: Event,
    events: &mut Items<Event>,
) -> Result<(), AllocError>
    requires { IsAwaiting (R.position run.old) }
    ensures resumes { (follow : Reply → R.State) → R.position run.old ≡ Awaits follow
        → OnOk result (R.position run.new ≡ At (follow (Reply.Give Undefined))) }
    ensures events { OnOk result (events.new ≡ events.old ++ event ∷ []) }
    ensures machine { R.machine run.new ≡ R.machine run.old }
{
    events.push(event)?;
    run.resume_with(Reply::Give(Prim::Undefined))
}
