//! The asking of one host.

ghost use Rattle.std.specs.Prelude.{◌≡◌, ◌<◌, ◌≤◌, length, option_map};
ghost use Rattle.es_outside.specs.Counts.{CountRose};
ghost use Rattle.es_outside.specs.Talk.{talk_after};
ghost use Rattle.es_outside.specs.declared.host.Reply.{Reply};
ghost use Rattle.program_runs.specs.Around.{KeepsHosts, faults_at, hosted};
ghost use Rattle.program_runs.specs.Positions.{Awaits, IsAwaiting};
ghost use Rattle.program_runs.specs.Talks.{asked};
ghost use Rattle.program_runs.specs.Turns.{Replies, Resumes};

use crate::end::Halt;
use crate::program_run::ProgramRun;
use es_outside::{Ending, Event, Host, HostAnswer, Prim, Reply};
use std::alloc::Global;

/// Asks the host of an event, and hands its reply in.
pub(crate) fn reply<R: ProgramRun>(
    alloc: Global,
    run: &mut R,
    hosts: &mut [(String, Box<dyn Host>)],
    event: &Event,
) -> Result<Option<Ending>, Halt>
    requires awaited { IsAwaiting (R.position run.old) }
    requires within { event.now.host < length hosts.old }
    ensures replies { (follow : Reply → R.State) → R.position run.old ≡ Awaits follow →
        Replies event.now follow (hosted hosts.old talk faults) (hosted hosts.new talk faults) (R.position run.new) result }
    ensures machine { R.machine run.new ≡ R.machine run.old }
    ensures keeps { KeepsHosts (hosted hosts.old talk faults) (hosted hosts.new talk faults) }
{
    match ask(alloc, hosts, event) {
        HostAnswer::Give(value) => resume(run, Reply::Give(value)),
        HostAnswer::Throw(value) => resume(run, Reply::Throw(value)),
        HostAnswer::Failed => Err(Halt::HostFailed { host: event.host }),
        HostAnswer::OutOfMemory => Err(Halt::OutOfMemory),
    }
}

/// Hands a reply in.
fn resume<R: ProgramRun>(run: &mut R, reply: Reply) -> Result<Option<Ending>, Halt>
    requires { IsAwaiting (R.position run.old) }
    ensures resumes { (follow : Reply → R.State) → R.position run.old ≡ Awaits follow
        → Resumes reply follow (R.position run.new) result }
    ensures machine { R.machine run.new ≡ R.machine run.old }
{
    match run.resume_with(reply) {
        Ok(()) => Ok(None),
        Err(_) => Err(Halt::OutOfMemory),
    }
}

/// Asks the host of an event.
fn ask(alloc: Global, hosts: &mut [(String, Box<dyn Host>)], event: &Event) -> HostAnswer
    requires { event.now.host < length hosts.old }
    ensures talks { (hosted hosts.new talk faults).talks ≡ asked event.now result (hosted hosts.old talk faults).talks }
    ensures failed { let number = event.now.host in result ≡ HostAnswer.Failed
        → CountRose (faults_at (hosted hosts.old talk faults) number) (faults_at (hosted hosts.new talk faults) number) }
    ensures keeps { KeepsHosts (hosted hosts.old talk faults) (hosted hosts.new talk faults) }
{
    ask_one(alloc, &mut hosts[event.host], event.args.list())
}

fn ask_one(alloc: Global, entry: &mut (String, Box<dyn Host>), args: &[Prim]) -> HostAnswer
    ensures name { entry.new.0 ≡ entry.old.0 }
    ensures told { talk entry.new.1 ≡ option_map (talk_after args.now result) (talk entry.old.1) }
    ensures no_fall { faults entry.old.1 ≤ faults entry.new.1 }
    ensures failed { result ≡ HostAnswer.Failed → CountRose (faults entry.old.1) (faults entry.new.1) }
{
    entry.1.answer(alloc, args)
}
