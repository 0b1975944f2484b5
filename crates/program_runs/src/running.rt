//! A run, step by step, with its talk.

ghost use Rattle.std.specs.Prelude.{◌≡◌};
ghost use Rattle.es_outside.specs.HostList.{entries};
ghost use Rattle.program_runs.specs.Around.{Keeps, around, hosted, output};
ghost use Rattle.program_runs.specs.Outcomes.{IsOutcome, Runs, behaviour};
ghost use Rattle.program_runs.specs.Positions.{At, IsAt};

use crate::end::{Halt, RunEnd};
use crate::finish::finish;
use crate::host_list::put_back;
use crate::places::Places;
use crate::program_run::ProgramRun;
use crate::turn::turn;
use es_outside::{Ending, Host, Hosts, Sink};
use std::alloc::Global;

/// Runs a program for at most so many steps. It writes the line of each event, asks the event's host, and writes the last line.
///
/// After these steps without an end the run is stopped; the host of an event that comes with the last step isn't asked.
pub fn run_out<R: ProgramRun, P: Places, S: Sink>(
    alloc: Global,
    run: &mut R,
    steps: u64,
    places: &P,
    hosts: &mut [(String, Box<dyn Host>)],
    out: &mut S,
) -> RunEnd
    requires { IsAt (R.position run.old) }
    ensures outcome { (start : R.State) → R.position run.old ≡ At start
        → IsOutcome (behaviour (R.machine run.old) start) steps (P.sites places.now)
        (around (hosted hosts.old talk (λ b. (Host-box b).faults b.value)) (output S.bytes S.faults out.old))
        (around (hosted hosts.new talk (λ b. (Host-box b).faults b.value)) (output S.bytes S.faults out.new)) result }
    ensures keeps { Keeps
        (around (hosted hosts.old talk (λ b. (Host-box b).faults b.value)) (output S.bytes S.faults out.old))
        (around (hosted hosts.new talk (λ b. (Host-box b).faults b.value)) (output S.bytes S.faults out.new)) }
{
    match go_on(alloc, run, steps, hosts, out) {
        Ok(over) => finish(alloc, places, steps, &over, out),
        Err(halt) => RunEnd::from(halt),
    }
}

/// The same with hosts that are handed in and given back.
pub fn run_out_with<R: ProgramRun, P: Places, S: Sink>(
    alloc: Global,
    run: &mut R,
    steps: u64,
    places: &P,
    hosts: Hosts,
    out: &mut S,
) -> (RunEnd, Hosts)
    requires { IsAt (R.position run.old) }
    ensures outcome { (start : R.State) → R.position run.old ≡ At start
        → IsOutcome (behaviour (R.machine run.old) start) steps (P.sites places.now)
        (around (hosted (entries hosts) (λ b. (⟦<dyn Host as Host>⟧ b.vtable).talk b.value) (λ b. (⟦<dyn Host as Host>⟧ b.vtable).faults b.value)) (output S.bytes S.faults out.old))
        (around (hosted (entries result.1) (λ b. (⟦<dyn Host as Host>⟧ b.vtable).talk b.value) (λ b. (⟦<dyn Host as Host>⟧ b.vtable).faults b.value)) (output S.bytes S.faults out.new)) result.0 }
    ensures keeps { Keeps
        (around (hosted (entries hosts) (λ b. (⟦<dyn Host as Host>⟧ b.vtable).talk b.value) (λ b. (⟦<dyn Host as Host>⟧ b.vtable).faults b.value)) (output S.bytes S.faults out.old))
        (around (hosted (entries result.1) (λ b. (⟦<dyn Host as Host>⟧ b.vtable).talk b.value) (λ b. (⟦<dyn Host as Host>⟧ b.vtable).faults b.value)) (output S.bytes S.faults out.new)) }
{
    let mut list = hosts.into_list();
    let end = run_out(alloc, run, steps, places, list.as_mut_slice(), out);
    (end, put_back(alloc, list))
}

/// Does so many steps, or those up to the run's end, and answers that end. The host of an event that comes with the last step isn't
/// asked.
fn go_on<R: ProgramRun, S: Sink>(
    alloc: Global,
    run: &mut R,
    steps: u64,
    hosts: &mut [(String, Box<dyn Host>)],
    out: &mut S,
) -> Result<Option<Ending>, Halt>
    requires { IsAt (R.position run.old) }
    ensures runs { (start : R.State) → R.position run.old ≡ At start → Runs (behaviour (R.machine run.old) start) steps
        (around (hosted hosts.old talk (λ b. (Host-box b).faults b.value)) (output S.bytes S.faults out.old))
        (around (hosted hosts.new talk (λ b. (Host-box b).faults b.value)) (output S.bytes S.faults out.new)) result }
    ensures machine { R.machine run.new ≡ R.machine run.old }
    ensures keeps { Keeps
        (around (hosted hosts.old talk (λ b. (Host-box b).faults b.value)) (output S.bytes S.faults out.old))
        (around (hosted hosts.new talk (λ b. (Host-box b).faults b.value)) (output S.bytes S.faults out.new)) }
{
    for done in 0..steps {
        match turn(alloc, run, done + 1 < steps, hosts, out) {
            Ok(None) => {}
            Ok(Some(ending)) => return Ok(Some(ending)),
            Err(halt) => return Err(halt),
        }
    }
    Ok(None)
}
