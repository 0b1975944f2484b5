//! The scripts of a graph.

ghost use Rattle.std.specs.Prelude.{◌≡◌, ◌+◌, IfOk};
ghost use Rattle.es6_static_semantics.specs.Graphs.{IsLinked};
ghost use Rattle.split_emit.specs.Split.{AreScriptsFrom, AreSplit, AreWrittenOf, IsSplitText};

use crate::cores::core_of;
use crate::scripts::SplitScript;
use crate::text::text_of;
use crate::writing::script_at;
use core_ast::Core;
use emit_list::emit_list;
use es_outside::HostNames;
use es5_ast::Script;
use es6_ast::{Graph, LoadedModule};
use graph_namespaces::namespaces_of;
use pipeline::{Declared, helpers_of};
use scope_analysis::resolve;
use std::alloc::{AllocError, Global};

/// All scripts, written and named.
fn all_written(
    alloc: Global,
    modules: &[LoadedModule],
    scripts: &[Script],
) -> Result<Vec<SplitScript>, AllocError>
    ensures { IfOk result (λ ss. AreScriptsFrom modules.now 0 scripts.now ss.items) }
{
    let mut made = Vec::new(alloc);
    let mut place: usize = 0;
    for script in scripts {
        made.push(script_at(alloc, modules, place, script)?)?;
        place = next(place)?;
    }
    Ok(made)
}

fn next(place: usize) -> Result<usize, AllocError>
    ensures { IfOk result (λ n. n ≡ place + 1) }
{
    match place.checked_add(1) {
        Some(next) => Ok(next),
        None => Err(AllocError),
    }
}

/// The scripts of a core with its helpers.
fn written_core(
    alloc: Global,
    modules: &[LoadedModule],
    core: &Core,
    hosts: &HostNames,
) -> Result<Vec<SplitScript>, AllocError>
    ensures { IfOk result (λ ss. AreWrittenOf modules.now core.now hosts.now ss.items) }
{
    let helpers = helpers_of(alloc, core)?;
    let scripts = emit_list(alloc, core, helpers, hosts)?;
    all_written(alloc, modules, scripts.as_slice())
}

/// The scripts of a linked graph, where the program has these hosts: a loader, one for each module in load order, and a start, each
/// with the line of its source map.
///
/// Err comes only where memory is wanting, or numbers for names.
pub fn split(
    alloc: Global,
    graph: &Graph,
    hosts: &HostNames,
) -> Result<Vec<SplitScript>, AllocError>
    requires linked { IsLinked graph.now hosts.now }
    ensures { IfOk result (λ ss. AreSplit graph.now hosts.now ss.items) }
{
    let scopes = resolve(alloc, graph)?;
    let namespaces = namespaces_of::<Declared>(alloc, graph, hosts)?;
    let core = core_of(alloc, graph, &scopes, namespaces.as_slice())?;
    written_core(alloc, graph.modules.as_slice(), &core, hosts)
}

/// The text of these scripts: for each a line with its name and the number of its bytes, and its bytes.
pub fn split_text(alloc: Global, graph: &Graph, hosts: &HostNames) -> Result<Vec<u8>, AllocError>
    requires linked { IsLinked graph.now hosts.now }
    ensures { IfOk result (λ bytes. IsSplitText graph.now hosts.now bytes.items) }
{
    let scripts = split(alloc, graph, hosts)?;
    text_of(alloc, scripts.as_slice())
}
