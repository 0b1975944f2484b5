//! What is made for a command, and how it is written.

ghost use Rattle.std.specs.Prelude.{◌≡◌, ◌≤◌, MatchResult};
ghost use Rattle.es_outside.specs.HostList.{entries, names};
ghost use Rattle.program_runs.specs.Around.{hosted};
ghost use Rattle.command_words.specs.Words.{asked_of};
ghost use Rattle.commands.specs.Outcome.{IsSaid, IsWithin, MakesText, RunsNone, written_of, subject};
ghost use Rattle.commands.specs.Parts.{IsAnswer, IsCommandOutcome, IsMisuseOutcome, IsFailOutcome, MadeBy, Fits};
ghost use Rattle.commands.specs.Lines.{line_of, status_of};

use crate::build::build;
use crate::fault::{CommandFault, Fault};
use crate::map::map_of;
use crate::rebuilding::rebuild;
use crate::run::run;
use crate::run5::run5;
use crate::sample::sample;
use crate::split::split;
use crate::status::Status;
use command_words::{Command, WordsFault};
use es_outside::{Files, Host, Hosts, Sink, write_all};
use std::alloc::Global;

/// The line for words that are no command.
const USAGE: &[u8] =
    b"usage: es5c build ENTRY / split ENTRY / rebuild ENTRY LIST / run ENTRY [--steps N] / run5 SCRIPT [--steps N] / map SCRIPT / sample N\n";

/// Writes the usage line where the words are no command.
pub fn misuse<E: Sink>(fault: WordsFault, err: &mut E) -> Status
    ensures outcome { IsMisuseOutcome fault (written_of E.bytes E.faults err.old err.new) result }
    ensures no_fall { E.faults err.old ≤ E.faults err.new }
{
    match fault {
        WordsFault::Usage => report(err, USAGE, Status::Usage),
        WordsFault::OutOfMemory => Status::OutOfMemory,
    }
}

/// Does a command: runs a program, or writes what it makes, or the line of its fault.
pub fn do_command<F: Files, S: Sink, E: Sink>(
    alloc: Global,
    command: &Command,
    files: &mut F,
    hosts: Hosts,
    out: &mut S,
    err: &mut E,
) -> (Status, Hosts)
    requires within { IsWithin (asked_of command.now) }
    ensures outcome { let o = written_of S.bytes S.faults out.old out.new in
        let e = written_of E.bytes E.faults err.old err.new in
        IsCommandOutcome (names hosts) (asked_of command.now) (F.files files.old) (F.faults files.old) (F.faults files.new)
        (hosted (entries hosts) (λ b. (⟦<dyn Host as Host>⟧ b.vtable).talk b.value) (λ b. (⟦<dyn Host as Host>⟧ b.vtable).faults b.value))
        (hosted (entries result.1) (λ b. (⟦<dyn Host as Host>⟧ b.vtable).talk b.value) (λ b. (⟦<dyn Host as Host>⟧ b.vtable).faults b.value)) o e result.0 }
    ensures kept { F.files files.new ≡ F.files files.old }
    ensures no_fall { (F.faults files.old ≤ F.faults files.new)
        × (S.faults out.old ≤ S.faults out.new) × (E.faults err.old ≤ E.faults err.new) }
    ensures unasked { RunsNone (asked_of command.now) → entries result.1 ≡ entries hosts }
{
    match command {
        Command::Run { entry, steps } => {
            run(alloc, entry.as_str(), *steps, files, hosts, out, err)
        }
        Command::Run5 { script, steps } => {
            run5(alloc, script.as_str(), *steps, files, hosts, out, err)
        }
        Command::Sample { n } => (sample(alloc, *n, out, err), hosts),
        _ => {
            let status = answer(alloc, command, files, &hosts, out, err);
            (status, hosts)
        }
    }
}

/// Does a command that makes a text of files: writes it, or the line of its fault.
fn answer<F: Files, S: Sink, E: Sink>(
    alloc: Global,
    command: &Command,
    files: &mut F,
    hosts: &Hosts,
    out: &mut S,
    err: &mut E,
) -> Status
    requires { MakesText (asked_of command.now) }
    ensures outcome { let o = written_of S.bytes S.faults out.old out.new in
        let e = written_of E.bytes E.faults err.old err.new in
        IsAnswer (names hosts.now) (asked_of command.now) (F.files files.old) (F.faults files.old) (F.faults files.new) o e result }
    ensures kept { F.files files.new ≡ F.files files.old }
    ensures no_fall { (F.faults files.old ≤ F.faults files.new)
        × (S.faults out.old ≤ S.faults out.new) × (E.faults err.old ≤ E.faults err.new) }
{
    match made(alloc, command, files, hosts) {
        Ok(text) => write_text(out, text.as_slice()),
        Err(fault) => fail(alloc, subject(command), fault, err),
    }
}

/// What a command writes to the output.
fn made<F: Files>(
    alloc: Global,
    command: &Command,
    files: &mut F,
    hosts: &Hosts,
) -> Result<Vec<u8>, CommandFault>
    requires { MakesText (asked_of command.now) }
    ensures made { let asked = asked_of command.now in
        MatchResult result (λ text. MadeBy (names hosts.now) asked (F.files files.old) text.items)
        (Fits (names hosts.now) asked (F.files files.old) (F.faults files.old) (F.faults files.new)) }
    ensures kept { F.files files.new ≡ F.files files.old }
    ensures no_fall { F.faults files.old ≤ F.faults files.new }
{
    match command {
        Command::Build { entry } => build(alloc, entry.as_str(), files, hosts),
        Command::Split { entry } => split(alloc, entry.as_str(), files, hosts),
        Command::Rebuild { entry, list } => {
            rebuild(alloc, entry.as_str(), list.as_str(), files, hosts)
        }
        Command::Map { script } => map_of(alloc, script.as_str(), files),
        Command::Run { .. } | Command::Run5 { .. } | Command::Sample { .. } => unreachable!(),
    }
}

/// What the lines of a command speak of: its file, or the script of the sample.
fn subject(command: &Command) -> &str
    ensures { result.now ≡ subject (asked_of command.now) }
{
    match command {
        Command::Build { entry } | Command::Split { entry } => entry.as_str(),
        Command::Map { script } => script.as_str(),
        Command::Rebuild { list, .. } => list.as_str(),
        Command::Run { entry, .. } => entry.as_str(),
        Command::Run5 { script, .. } => script.as_str(),
        Command::Sample { .. } => "sample",
    }
}

/// Writes the line of a command's fault, if it has one.
pub(crate) fn fail<E: Sink>(
    alloc: Global,
    subject: &str,
    fault: CommandFault,
    err: &mut E,
) -> Status
    ensures outcome { IsFailOutcome subject.now fault (written_of E.bytes E.faults err.old err.new) result }
    ensures no_fall { E.faults err.old ≤ E.faults err.new }
{
    match fault {
        CommandFault::Refused(fault) => refuse(alloc, subject, fault, err),
        CommandFault::OutOfMemory => Status::OutOfMemory,
    }
}

/// Writes a whole text to the output.
fn write_text<S: Sink>(out: &mut S, text: &[u8]) -> Status
    ensures said { IsSaid (written_of S.bytes S.faults out.old out.new) text.now Status.Done result }
    ensures no_fall { S.faults out.old ≤ S.faults out.new }
{
    match write_all(out, text) {
        Ok(()) => Status::Done,
        Err(_) => Status::WriteFault,
    }
}

/// Writes the line of a fault to the error stream, and answers the fault's status.
pub(crate) fn refuse<E: Sink>(alloc: Global, path: &str, fault: Fault, err: &mut E) -> Status
    ensures said { IsSaid (written_of E.bytes E.faults err.old err.new) (line_of path.now fault) (status_of fault) result }
    ensures no_fall { E.faults err.old ≤ E.faults err.new }
{
    match fault.line(alloc, path) {
        Ok(line) => report(err, line.as_slice(), fault.status()),
        Err(_) => Status::OutOfMemory,
    }
}

/// Writes a line to the error stream, and answers its status.
pub(crate) fn report<E: Sink>(err: &mut E, line: &[u8], status: Status) -> Status
    ensures said { IsSaid (written_of E.bytes E.faults err.old err.new) line.now status result }
    ensures no_fall { E.faults err.old ≤ E.faults err.new }
{
    match write_all(err, line) {
        Ok(()) => status,
        Err(_) => Status::WriteFault,
    }
}
