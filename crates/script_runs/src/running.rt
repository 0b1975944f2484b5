//! The run of a script.

ghost use Rattle.std.specs.Prelude.{◌≡◌, ◌≤◌, IfOk};
ghost use Rattle.es_outside.specs.HostList.{entries, names};
ghost use Rattle.es_outside.specs.Refusals.{AreHostNames};
ghost use Rattle.program_runs.specs.Around.{Keeps, around, hosted, output};
ghost use Rattle.script_lowering.specs.Scripts.{core_of};
ghost use Rattle.script_lowering.specs.declared.sites.Sites.TheVariants.{BySpan};
ghost use Rattle.script_runs.specs.Runs.{Ends, Runs};

use crate::placing::place_in;
use crate::reading::{ReadScript, read_script};
use crate::unread::Unread;
use core_ast::Core;
use es_outside::{Files, Host, HostNames, Hosts, Sink, Site};
use es_text::{Lines, Place};
use eval5_step::Run5;
use program_runs::{Places, RunEnd, run_out_with};
use script_lowering::{Sites, core_of_script};
use std::alloc::{AllocError, Global};

/// Where the sites of a script stand: in its file.
#[derive(Drop)]
struct ScriptPlaces<'a> {
    path: &'a str,
    lines: &'a Lines,
}

impl Places for ScriptPlaces<'_> {
    ghost use Rattle.script_runs.specs.Runs.{sites_in};

    ghost sites = { λ it. sites_in it.path.now it.lines.now };

    fn path(&self, _site: Site) -> &[u8] {
        self.path.as_bytes()
    }

    fn place(&self, site: Site) -> Place {
        place_in(self.lines, site.at)
    }
}

/// Runs the script that stands in the file with this path, for at most so many steps: writes the line of each event, asks the event's
/// host, and writes the last line. A file that holds no script leaves hosts and output as they were.
pub fn run_script<F: Files, S: Sink>(
    alloc: Global,
    path: &str,
    steps: u64,
    files: &mut F,
    hosts: Hosts,
    out: &mut S,
) -> (Result<RunEnd, Unread>, Hosts)
    requires { AreHostNames (names hosts) }
    ensures ends { Ends (F.files files.old) (F.faults files.old) (F.faults files.new) path.now steps
        (around (hosted (entries hosts) (λ b. (⟦<dyn Host as Host>⟧ b.vtable).talk b.value) (λ b. (⟦<dyn Host as Host>⟧ b.vtable).faults b.value)) (output S.bytes S.faults out.old))
        (around (hosted (entries result.1) (λ b. (⟦<dyn Host as Host>⟧ b.vtable).talk b.value) (λ b. (⟦<dyn Host as Host>⟧ b.vtable).faults b.value)) (output S.bytes S.faults out.new)) result.0 }
    ensures keeps { Keeps
        (around (hosted (entries hosts) (λ b. (⟦<dyn Host as Host>⟧ b.vtable).talk b.value) (λ b. (⟦<dyn Host as Host>⟧ b.vtable).faults b.value)) (output S.bytes S.faults out.old))
        (around (hosted (entries result.1) (λ b. (⟦<dyn Host as Host>⟧ b.vtable).talk b.value) (λ b. (⟦<dyn Host as Host>⟧ b.vtable).faults b.value)) (output S.bytes S.faults out.new)) }
    ensures kept { F.files files.new ≡ F.files files.old }
    ensures no_fall { F.faults files.old ≤ F.faults files.new }
{
    match read_script(alloc, path, files) {
        Ok(read) => run_read(alloc, path, steps, &read, hosts, out),
        Err(unread) => (Err(unread), hosts),
    }
}

/// Runs a script that was read.
fn run_read<S: Sink>(
    alloc: Global,
    path: &str,
    steps: u64,
    read: &ReadScript,
    hosts: Hosts,
    out: &mut S,
) -> (Result<RunEnd, Unread>, Hosts)
    ensures ends { Runs (names hosts) read.now.script path.now read.now.lines steps
        (around (hosted (entries hosts) (λ b. (⟦<dyn Host as Host>⟧ b.vtable).talk b.value) (λ b. (⟦<dyn Host as Host>⟧ b.vtable).faults b.value)) (output S.bytes S.faults out.old))
        (around (hosted (entries result.1) (λ b. (⟦<dyn Host as Host>⟧ b.vtable).talk b.value) (λ b. (⟦<dyn Host as Host>⟧ b.vtable).faults b.value)) (output S.bytes S.faults out.new)) result.0 }
    ensures keeps { Keeps
        (around (hosted (entries hosts) (λ b. (⟦<dyn Host as Host>⟧ b.vtable).talk b.value) (λ b. (⟦<dyn Host as Host>⟧ b.vtable).faults b.value)) (output S.bytes S.faults out.old))
        (around (hosted (entries result.1) (λ b. (⟦<dyn Host as Host>⟧ b.vtable).talk b.value) (λ b. (⟦<dyn Host as Host>⟧ b.vtable).faults b.value)) (output S.bytes S.faults out.new)) }
{
    match core_of(alloc, read, &hosts) {
        Ok((core, host_names)) => {
            run_core(alloc, path, steps, read, &core, &host_names, hosts, out)
        }
        Err(_) => (Err(Unread::OutOfMemory), hosts),
    }
}

/// The core of a script, and the names of the hosts.
fn core_of(alloc: Global, read: &ReadScript, hosts: &Hosts) -> Result<(Core, HostNames), AllocError>
    ensures { IfOk result (λ made. (made.0 ≡ core_of BySpan read.now.script) × (made.1 ≡ names hosts.now)) }
{
    let core = core_of_script(alloc, Sites::BySpan, &read.script)?;
    let host_names = hosts.names(alloc)?;
    Ok((core, host_names))
}

/// Runs the core of a script.
fn run_core<S: Sink>(
    alloc: Global,
    path: &str,
    steps: u64,
    read: &ReadScript,
    core: &Core,
    host_names: &HostNames,
    hosts: Hosts,
    out: &mut S,
) -> (Result<RunEnd, Unread>, Hosts)
    requires core { core.now ≡ core_of BySpan read.now.script }
    requires names { host_names.now ≡ names hosts }
    ensures ends { Runs (names hosts) read.now.script path.now read.now.lines steps
        (around (hosted (entries hosts) (λ b. (⟦<dyn Host as Host>⟧ b.vtable).talk b.value) (λ b. (⟦<dyn Host as Host>⟧ b.vtable).faults b.value)) (output S.bytes S.faults out.old))
        (around (hosted (entries result.1) (λ b. (⟦<dyn Host as Host>⟧ b.vtable).talk b.value) (λ b. (⟦<dyn Host as Host>⟧ b.vtable).faults b.value)) (output S.bytes S.faults out.new)) result.0 }
    ensures keeps { Keeps
        (around (hosted (entries hosts) (λ b. (⟦<dyn Host as Host>⟧ b.vtable).talk b.value) (λ b. (⟦<dyn Host as Host>⟧ b.vtable).faults b.value)) (output S.bytes S.faults out.old))
        (around (hosted (entries result.1) (λ b. (⟦<dyn Host as Host>⟧ b.vtable).talk b.value) (λ b. (⟦<dyn Host as Host>⟧ b.vtable).faults b.value)) (output S.bytes S.faults out.new)) }
{
    match Run5::new(alloc, core, host_names) {
        Ok(mut run) => {
            let places = ScriptPlaces {
                path,
                lines: &read.lines,
            };
            let (end, back) = run_out_with(alloc, &mut run, steps, &places, hosts, out);
            (Ok(end), back)
        }
        Err(_) => (Err(Unread::OutOfMemory), hosts),
    }
}
