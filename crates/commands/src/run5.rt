//! The command `run5`.

ghost use Rattle.std.specs.Prelude.{◌≡◌, ◌≤◌};
ghost use Rattle.es_outside.specs.HostList.{entries, names};
ghost use Rattle.command_words.specs.Words.{run5};
ghost use Rattle.program_runs.specs.Around.{hosted};
ghost use Rattle.commands.specs.Outcome.{written_of};
ghost use Rattle.commands.specs.Parts.{IsCommandOutcome, IsToldOf};

use crate::command::refuse;
use crate::ending::ended;
use crate::fault::Fault;
use crate::status::Status;
use es_outside::{Files, Host, Hosts, Sink};
use script_runs::{RunEnd, Unread, run_script};
use std::alloc::Global;

/// Runs the script that stands in the file with this path, for at most so many steps.
pub fn run5<F: Files, S: Sink, E: Sink>(
    alloc: Global,
    path: &str,
    steps: u64,
    files: &mut F,
    hosts: Hosts,
    out: &mut S,
    err: &mut E,
) -> (Status, Hosts)
    ensures outcome { let o = written_of S.bytes S.faults out.old out.new in
        let e = written_of E.bytes E.faults err.old err.new in
        IsCommandOutcome (names hosts) (run5 path.now steps) (F.files files.old) (F.faults files.old) (F.faults files.new)
        (hosted (entries hosts) (λ b. (⟦<dyn Host as Host>⟧ b.vtable).talk b.value) (λ b. (⟦<dyn Host as Host>⟧ b.vtable).faults b.value))
        (hosted (entries result.1) (λ b. (⟦<dyn Host as Host>⟧ b.vtable).talk b.value) (λ b. (⟦<dyn Host as Host>⟧ b.vtable).faults b.value)) o e result.0 }
    ensures kept { F.files files.new ≡ F.files files.old }
    ensures no_fall { (F.faults files.old ≤ F.faults files.new)
        × (S.faults out.old ≤ S.faults out.new) × (E.faults err.old ≤ E.faults err.new) }
{
    let (made, back) = run_script(alloc, path, steps, files, hosts, out);
    let status = told(alloc, path, made, &back, err);
    (status, back)
}

/// The status of what was made of a script, and the line that says why it wasn't run, or which host failed.
fn told<E: Sink>(
    alloc: Global,
    path: &str,
    made: Result<RunEnd, Unread>,
    hosts: &Hosts,
    err: &mut E,
) -> Status
    ensures told { IsToldOf path.now (names hosts.now) (written_of E.bytes E.faults err.old err.new) made result }
    ensures no_fall { E.faults err.old ≤ E.faults err.new }
{
    match made {
        Ok(end) => ended(alloc, end, hosts, err),
        Err(Unread::Refused(fault)) => refuse(alloc, path, Fault::InScript(fault), err),
        Err(Unread::OutOfMemory) => Status::OutOfMemory,
    }
}
