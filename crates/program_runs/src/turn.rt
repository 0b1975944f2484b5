//! One step of a run, and the talk that comes of it.

ghost use Rattle.std.specs.Prelude.{◌≡◌};
ghost use Rattle.es_outside.specs.declared.host.Reply.{Reply};
ghost use Rattle.program_runs.specs.Around.{Keeps, around, hosted, output};
ghost use Rattle.program_runs.specs.Positions.{At, Awaits, IsAt, IsAwaiting};
ghost use Rattle.program_runs.specs.Turns.{Tells, Turns};

use crate::asking::reply;
use crate::end::Halt;
use crate::program_run::ProgramRun;
use crate::telling::tell;
use es_outside::{Ending, Event, Host, Sink, Step};
use std::alloc::Global;

/// Does a step, writes the line of the event that it may have, and asks the event's host, if it is to be asked.
pub(crate) fn turn<R: ProgramRun, S: Sink>(
    alloc: Global,
    run: &mut R,
    asks: bool,
    hosts: &mut [(String, Box<dyn Host>)],
    out: &mut S,
) -> Result<Option<Ending>, Halt>
    requires { IsAt (R.position run.old) }
    ensures turns { (state : R.State) → R.position run.old ≡ At state → Turns asks (R.machine run.old state)
        (around (hosted hosts.old talk (λ b. (Host-box b).faults b.value)) (output S.bytes S.faults out.old))
        (around (hosted hosts.new talk (λ b. (Host-box b).faults b.value)) (output S.bytes S.faults out.new))
        (R.position run.new) result }
    ensures machine { R.machine run.new ≡ R.machine run.old }
    ensures keeps { Keeps
        (around (hosted hosts.old talk (λ b. (Host-box b).faults b.value)) (output S.bytes S.faults out.old))
        (around (hosted hosts.new talk (λ b. (Host-box b).faults b.value)) (output S.bytes S.faults out.new)) }
{
    match run.step() {
        Step::Running => Ok(None),
        Step::Asks { event } => speak(alloc, run, asks, hosts, &event, out),
        Step::Is(ending) => Ok(Some(ending)),
        Step::OutOfMemory => Err(Halt::OutOfMemory),
    }
}

/// Writes the line of an event, and asks its host, if it is to be asked.
fn speak<R: ProgramRun, S: Sink>(
    alloc: Global,
    run: &mut R,
    asks: bool,
    hosts: &mut [(String, Box<dyn Host>)],
    event: &Event,
    out: &mut S,
) -> Result<Option<Ending>, Halt>
    requires { IsAwaiting (R.position run.old) }
    ensures tells { (follow : Reply → R.State) → R.position run.old ≡ Awaits follow → Tells asks event.now follow
        (around (hosted hosts.old talk (λ b. (Host-box b).faults b.value)) (output S.bytes S.faults out.old))
        (around (hosted hosts.new talk (λ b. (Host-box b).faults b.value)) (output S.bytes S.faults out.new))
        (R.position run.new) result }
    ensures machine { R.machine run.new ≡ R.machine run.old }
    ensures keeps { Keeps
        (around (hosted hosts.old talk (λ b. (Host-box b).faults b.value)) (output S.bytes S.faults out.old))
        (around (hosted hosts.new talk (λ b. (Host-box b).faults b.value)) (output S.bytes S.faults out.new)) }
{
    match tell(alloc, hosts, event, out) {
        Ok(()) if asks => reply(alloc, run, hosts, event),
        Ok(()) => Ok(None),
        Err(halt) => Err(halt),
    }
}
