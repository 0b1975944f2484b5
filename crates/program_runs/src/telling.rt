//! The line of an event, which is written before its host is asked.

ghost use Rattle.std.specs.Prelude.{◌≡◌, ◌<◌, ◌≤◌, length, IfOk, OnOk};
ghost use Rattle.es_outside.specs.NamedList.{names_of};
ghost use Rattle.run_lines.specs.Events.{event_line};
ghost use Rattle.program_runs.specs.Around.{output};
ghost use Rattle.program_runs.specs.Turns.{Writes, line_of};

use crate::end::Halt;
use es_outside::{Event, Host, Sink, write_all};
use run_lines::push_event;
use std::alloc::{AllocError, Global};

/// Writes the line of an event. An event of a host that isn't there, which no program has, is answered as want of memory is.
pub(crate) fn tell<S: Sink>(
    alloc: Global,
    hosts: &[(String, Box<dyn Host>)],
    event: &Event,
    out: &mut S,
) -> Result<(), Halt>
    ensures within { OnOk result (event.now.host < length hosts.now) }
    ensures writes { Writes (line_of (names_of hosts.now) event.now)
        (output S.bytes S.faults out.old) (output S.bytes S.faults out.new) result }
    ensures no_fall { S.faults out.old ≤ S.faults out.new }
{
    match hosts.get(event.host) {
        Some((name, _)) => tell_named(alloc, name.as_str(), event, out),
        None => Err(Halt::OutOfMemory),
    }
}

fn tell_named<S: Sink>(alloc: Global, name: &str, event: &Event, out: &mut S) -> Result<(), Halt>
    ensures writes { Writes (event_line name.now event.now.args)
        (output S.bytes S.faults out.old) (output S.bytes S.faults out.new) result }
    ensures no_fall { S.faults out.old ≤ S.faults out.new }
{
    match text_of(alloc, name, event) {
        Ok(line) => write_line(out, line.as_slice()),
        Err(_) => Err(Halt::OutOfMemory),
    }
}

fn text_of(alloc: Global, name: &str, event: &Event) -> Result<Vec<u8>, AllocError>
    ensures { IfOk result (λ line. line.items ≡ event_line name.now event.now.args) }
{
    let mut line = Vec::new(alloc);
    push_event(alloc, &mut line, name, event.args.list())?;
    Ok(line)
}

/// Writes a line.
pub(crate) fn write_line<S: Sink>(out: &mut S, line: &[u8]) -> Result<(), Halt>
    ensures writes { Writes line.now (output S.bytes S.faults out.old) (output S.bytes S.faults out.new) result }
    ensures no_fall { S.faults out.old ≤ S.faults out.new }
{
    match write_all(out, line) {
        Ok(()) => Ok(()),
        Err(_) => Err(Halt::WriteFailed),
    }
}
