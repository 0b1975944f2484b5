//! The builds among edits, and what is written of each: the text of its graph, or why that is refused.

ghost use Rattle.std.specs.Prelude.{◌≡◌, ◌≤◌, ◌≢◌, None, Some, map, IfOk};
ghost use Rattle.es_outside.specs.Counts.{CountRose};
ghost use Rattle.es6_static_semantics.specs.Graphs.{IsLinked};
ghost use Rattle.listed_builds.specs.Doing.{IfUnread, IsUnread, ReadsIn, step_of};
ghost use Rattle.rebuild.specs.Keeping.{graph_in};
ghost use Rattle.module_linker.specs.graph_checks.Builds.{IsRefusedAs, IsTextOf, IsToldAs, ReadsNext, Writes, WritesAll};

use crate::graph_checks::faults::{told_link, told_load};
use crate::module_checks::ModuleFault;
use crate::{LinkFault, LoadFault, Rebuild};
use es_outside::{Files, HostNames};
use es6_ast::Graph;
use graph_refusals::GraphFault;
use listed_builds::{BuildFault, BuildsAgain, Taken, built_text, do_edits, refused_text};
use module_loading::FindsFiles;
use rebuild::RebuildFault;
use std::alloc::{AllocError, Global};
use std::marker::PhantomData;

/// What a linked graph is written as.
pub trait WritesGraph {
    ghost use Rattle.std.specs.Prelude.{ℕ, List, IfOk};
    ghost use Rattle.es6_ast.specs.declared.graph.Graph.{Graph};
    ghost use Rattle.es6_static_semantics.specs.Graphs.{IsLinked};

    /// That this is the text of the graph, where the program has these hosts.
    ghost is_text: { Graph → List (List ℕ) → List ℕ → Type 0 };

    fn text(alloc: Global, graph: &Graph, hosts: &HostNames) -> Result<Vec<u8>, AllocError>
        requires linked { IsLinked graph.now hosts.now }
        ensures { IfOk result (λ text. is_text graph.now hosts.now text.items) };
}

/// What the builds among these edits of the files write, one behind the other: of an accepted one its numbers and the text of its graph,
/// and of a refused one its line. A file that can't be read ends all.
pub fn written_builds<F: Files, U: WritesGraph>(
    alloc: Global,
    files: &mut F,
    edits: &[Taken],
    entry: &str,
    hosts: &HostNames,
) -> Result<Vec<u8>, BuildFault>
    ensures writes { IfOk result (λ text. WritesAll U.is_text entry.now hosts.now
        (F.files files.old) (map step_of edits.now) text.items) }
    ensures reads { IfUnread result (ReadsIn (ReadsNext entry.now) (F.files files.old) (map step_of edits.now)) }
    ensures unchanged { F.files files.new ≡ F.files files.old }
    ensures no_fall { F.faults files.old ≤ F.faults files.new }
    ensures failed { IsUnread result → CountRose (F.faults files.old) (F.faults files.new) }
{
    let mut builds = Builds::<U> {
        rebuild: Rebuild::new(alloc),
        writes: PhantomData,
    };
    do_edits(alloc, files, edits, entry, hosts, &mut builds)
}

/// Builds whose graphs are written so.
#[derive(Drop)]
struct Builds<U: WritesGraph> {
    rebuild: Rebuild,
    writes: PhantomData<U>,
}

impl<U: WritesGraph> BuildsAgain for Builds<U> {
    ghost use Rattle.rebuild.specs.Keeping.{keeps};
    ghost use Rattle.module_linker.specs.graph_checks.Builds.{ReadsNext, Writes};

    ghost keeps = { λ builds. keeps builds.rebuild };

    ghost writes = { Writes U.is_text };

    ghost reads = { ReadsNext };

    fn build<F, W: FindsFiles<F>>(
        &mut self,
        alloc: Global,
        files: &mut F,
        entry: &str,
        hosts: &HostNames,
    ) -> Result<Vec<u8>, BuildFault> {
        match self.rebuild.build_by::<F, W>(alloc, files, entry, hosts) {
            Ok(parsed) => {
                let graph = graph_of(&self.rebuild);
                Ok(text_of::<U>(alloc, graph, parsed.len(), hosts)?)
            }
            Err(fault) => told(alloc, entry, fault),
        }
    }
}

/// The graph that was built.
fn graph_of(builds: &Rebuild) -> &Graph
    requires { graph_in builds.now ≢ None }
    ensures { graph_in builds.now ≡ Some result.now }
{
    match builds.graph() {
        Some(graph) => graph,
        None => unreachable!(),
    }
}

/// The numbers of a build with this graph, for which so many modules were read, and the graph's text.
fn text_of<U: WritesGraph>(
    alloc: Global,
    graph: &Graph,
    parsed: usize,
    hosts: &HostNames,
) -> Result<Vec<u8>, AllocError>
    requires linked { IsLinked graph.now hosts.now }
    ensures { IfOk result (λ text. IsTextOf U.is_text hosts.now graph.now parsed text.items) }
{
    let script = U::text(alloc, graph, hosts)?;
    built_text(alloc, graph.modules.len(), parsed, script.as_slice())
}

/// What is written of a build that has this fault. Of a read that failed nothing is.
fn told(
    alloc: Global,
    entry: &str,
    fault: RebuildFault<ModuleFault, LinkFault>,
) -> Result<Vec<u8>, BuildFault>
    ensures { IsToldAs entry.now fault result }
{
    match fault {
        RebuildFault::Load(LoadFault::ReadFault { path }) => Err(BuildFault::Unread(path)),
        RebuildFault::Load(fault) => refused(alloc, told_load(alloc, entry, fault)),
        RebuildFault::Link(fault) => refused(alloc, told_link(fault)),
        RebuildFault::OutOfMemory => Err(BuildFault::OutOfMemory),
    }
}

fn refused(alloc: Global, fault: GraphFault) -> Result<Vec<u8>, BuildFault>
    ensures { IsRefusedAs fault result }
{
    match fault {
        GraphFault::Refused(refusal) => {
            let line = refusal.line(alloc)?;
            Ok(refused_text(alloc, line.as_slice())?)
        }
        GraphFault::OutOfMemory => Err(BuildFault::OutOfMemory),
    }
}
