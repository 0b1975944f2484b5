//! The top call, which does one command.

ghost use Rattle.std.specs.Prelude.{◌≡◌, ◌≤◌, map, string_bytes};
ghost use Rattle.es_outside.specs.HostList.{entries};
ghost use Rattle.program_runs.specs.Around.{hosted};
ghost use Rattle.commands.specs.Outcome.{written_of, call_of, IsOutcome, IsUnasking, ComesWhenDue};

use crate::command::{do_command, misuse};
use crate::status::Status;
use command_words::read_words;
use es_outside::{Files, Host, Hosts, Sink};
use std::alloc::Global;

/// Does the command that the words are: reads files, asks hosts where it runs a program, writes to the output and, where the command is
/// refused or a host failed, one line to the error stream. The hosts are given back.
pub fn es5c<F: Files, S: Sink, E: Sink>(
    alloc: Global,
    words: &[String],
    files: &mut F,
    hosts: Hosts,
    out: &mut S,
    err: &mut E,
) -> (Status, Hosts)
    // What the call leaves at each status.
    ensures outcome { let o = written_of S.bytes S.faults out.old out.new in
        let e = written_of E.bytes E.faults err.old err.new in
        IsOutcome (call_of F.files F.faults (map string_bytes words.now)
        (hosted (entries hosts) (λ b. (⟦<dyn Host as Host>⟧ b.vtable).talk b.value) (λ b. (⟦<dyn Host as Host>⟧ b.vtable).faults b.value))
        (hosted (entries result.1) (λ b. (⟦<dyn Host as Host>⟧ b.vtable).talk b.value) (λ b. (⟦<dyn Host as Host>⟧ b.vtable).faults b.value)) files.old files.new o e) result.0 }
    // Where no count of faults rose and memory is there, the status is the one that is due.
    ensures due { let o = written_of S.bytes S.faults out.old out.new in
        let e = written_of E.bytes E.faults err.old err.new in
        ComesWhenDue (call_of F.files F.faults (map string_bytes words.now)
        (hosted (entries hosts) (λ b. (⟦<dyn Host as Host>⟧ b.vtable).talk b.value) (λ b. (⟦<dyn Host as Host>⟧ b.vtable).faults b.value))
        (hosted (entries result.1) (λ b. (⟦<dyn Host as Host>⟧ b.vtable).talk b.value) (λ b. (⟦<dyn Host as Host>⟧ b.vtable).faults b.value)) files.old files.new o e) result.0 }
    // The files tell what they told, and no count of faults falls.
    ensures kept { F.files files.new ≡ F.files files.old }
    ensures no_fall { (F.faults files.old ≤ F.faults files.new)
        × (S.faults out.old ≤ S.faults out.new) × (E.faults err.old ≤ E.faults err.new) }
    // Where the words run no program, no host is asked.
    ensures unasked { IsUnasking (map string_bytes words.now) → entries result.1 ≡ entries hosts }
{
    match read_words(alloc, words) {
        Ok(command) => do_command(alloc, &command, files, hosts, out, err),
        Err(fault) => (misuse(fault, err), hosts),
    }
}
