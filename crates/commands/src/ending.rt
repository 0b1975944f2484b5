//! How runs end: their statuses, and the line of a host that failed.

ghost use Rattle.std.specs.Prelude.{◌≡◌, ◌≤◌, IfOk};
ghost use Rattle.es_outside.specs.HostList.{names};
ghost use Rattle.es_outside.specs.NamedList.{name_at};
ghost use Rattle.run_lines.specs.Endings.{host_failed_line};
ghost use Rattle.commands.specs.Outcome.{IsEnded, IsSaid, written_of};

use crate::command::report;
use crate::status::Status;
use es_outside::{Hosts, Sink};
use program_runs::RunEnd;
use run_lines::push_host_failed;
use std::alloc::{AllocError, Global};

/// The status of a run that ended so. A host that failed is named on the error stream.
pub(crate) fn ended<E: Sink>(alloc: Global, end: RunEnd, hosts: &Hosts, err: &mut E) -> Status
    ensures ended { IsEnded (names hosts.now) (written_of E.bytes E.faults err.old err.new) end result }
    ensures no_fall { E.faults err.old ≤ E.faults err.new }
{
    match end {
        RunEnd::Ended => Status::Done,
        RunEnd::Threw => Status::Threw,
        RunEnd::Left => Status::Left,
        RunEnd::StepsSpent => Status::StepsSpent,
        RunEnd::HostFailed { host } => report_host(alloc, host, hosts, err),
        RunEnd::WriteFailed => Status::WriteFault,
        RunEnd::OutOfMemory => Status::OutOfMemory,
    }
}

/// Names a host that failed.
fn report_host<E: Sink>(alloc: Global, host: usize, hosts: &Hosts, err: &mut E) -> Status
    ensures said { IsSaid (written_of E.bytes E.faults err.old err.new) (host_failed_line (name_at (names hosts.now) host)) Status.HostFault result }
    ensures no_fall { E.faults err.old ≤ E.faults err.new }
{
    match failed_line(alloc, host, hosts) {
        Ok(line) => report(err, line.as_slice(), Status::HostFault),
        Err(_) => Status::OutOfMemory,
    }
}

fn failed_line(alloc: Global, host: usize, hosts: &Hosts) -> Result<Vec<u8>, AllocError>
    ensures { IfOk result (λ line. line.items ≡ host_failed_line (name_at (names hosts.now) host)) }
{
    let mut line = Vec::new(alloc);
    push_host_failed(alloc, &mut line, name_of(host, hosts))?;
    Ok(line)
}

/// The name of the host with this number, and none where there is no such host.
fn name_of(host: usize, hosts: &Hosts) -> &str
    ensures { result.now ≡ name_at (names hosts.now) host }
{
    match hosts.name(host) {
        Some(name) => name,
        None => "",
    }
}
