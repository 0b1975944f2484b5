//! The command `rebuild`.

ghost use Rattle.std.specs.Prelude.{◌≡◌, ◌≤◌, MatchResult};
ghost use Rattle.es_outside.specs.HostList.{names};
ghost use Rattle.command_words.specs.Words.{rebuild};
ghost use Rattle.commands.specs.Outcome.{IsRebuilt};
ghost use Rattle.commands.specs.Parts.{Fits, build_fault_of};

use crate::fault::{CommandFault, Fault};
use edit_reading::{EditsFault, take_edits};
use es_outside::{Files, HostNames, Hosts};
use es6_ast::Graph;
use listed_builds::BuildFault;
use module_linker::graph_checks::{WritesGraph, written_builds};
use pipeline::compile;
use std::alloc::{AllocError, Global};

/// What a graph that is built among edits is compiled to.
struct Compiled;

impl WritesGraph for Compiled {
    ghost use Rattle.pipeline.specs.Compiled.{IsCompiled};

    ghost is_text = { IsCompiled };

    fn text(alloc: Global, graph: &Graph, hosts: &HostNames) -> Result<Vec<u8>, AllocError> {
        compile(alloc, graph, hosts)
    }
}

/// What the builds of the entry write among the edits of the list in the file `list`: of an accepted one a line with its numbers, and
/// the script of its graph; of a refused one its line. The files that the edits put are read first.
pub fn rebuild<F: Files>(
    alloc: Global,
    entry: &str,
    list: &str,
    files: &mut F,
    hosts: &Hosts,
) -> Result<Vec<u8>, CommandFault>
    ensures made { MatchResult result
        (λ text. IsRebuilt (names hosts.now) (F.files files.old) entry.now list.now text.items)
        (Fits (names hosts.now) (rebuild entry.now list.now) (F.files files.old) (F.faults files.old) (F.faults files.new)) }
    ensures kept { F.files files.new ≡ F.files files.old }
    ensures no_fall { F.faults files.old ≤ F.faults files.new }
{
    let host_names = hosts.names(alloc)?;
    let edits = take_edits(alloc, list, files)?;
    match written_builds::<F, Compiled>(alloc, files, edits.as_slice(), entry, &host_names) {
        Ok(text) => Ok(text),
        Err(fault) => Err(ended(fault)),
    }
}

/// A fault that ends all builds.
fn ended(fault: BuildFault) -> CommandFault
    ensures { result ≡ build_fault_of fault }
{
    match fault {
        BuildFault::Unread(path) => {
            CommandFault::Refused(Fault::InEdits(EditsFault::UnreadFile { path }))
        }
        BuildFault::OutOfMemory => CommandFault::OutOfMemory,
    }
}
