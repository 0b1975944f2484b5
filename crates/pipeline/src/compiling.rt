//! The script of a graph.

ghost use Rattle.std.specs.Prelude.{◌≡◌, true, IfOk};
ghost use Rattle.core_primitives.specs.Used.{used_primitives};
ghost use Rattle.emission_rules.specs.Functions.{emitted};
ghost use Rattle.es5_printable.specs.Printable.{is_printable};
ghost use Rattle.es6_static_semantics.specs.Graphs.{IsLinked};
ghost use Rattle.helpers.specs.Definitions.{AreDefinitions};
ghost use Rattle.helpers.specs.Wanted.{wanted};
ghost use Rattle.pipeline.specs.Compiled.{core_of, IsCompiled, IsWrittenOf};

use crate::cores::core_of;
use crate::helping::helpers_of;
use crate::writing::written;
use core_ast::Core;
use declared_names::declared_names;
use emit5::emit;
use es_outside::HostNames;
use es6_ast::{Graph, LoadedModule, Statement};
use graph_namespaces::namespaces_of;
use module_summaries::Declares;
use scope_analysis::resolve;
use shared_text::Name;
use sqlite_items::Items;
use std::alloc::{AllocError, Global};

/// What a declaration declares, by the walk of the early errors' definitions.
pub struct Declared;

impl Declares for Declared {
    fn declared(alloc: Global, statement: &Statement) -> Result<Items<Name>, AllocError> {
        declared_names(alloc, statement)
    }
}

/// The script of a core with its helpers, as text with its map.
fn written_core(
    alloc: Global,
    modules: &[LoadedModule],
    core: &Core,
    hosts: &HostNames,
) -> Result<Vec<u8>, AllocError>
    ensures { IfOk result (λ bytes. IsWrittenOf modules.now core.now hosts.now bytes.items) }
{
    let helpers = helpers_of(alloc, core)?;
    let script = emit(alloc, core, helpers, hosts)?;
    written(alloc, modules, &script)
}

/// The script of a linked graph, where the program has these hosts: one function in strict code, with the line of its source map.
///
/// Err comes only where memory is wanting, or numbers for names.
pub fn compile(alloc: Global, graph: &Graph, hosts: &HostNames) -> Result<Vec<u8>, AllocError>
    requires linked { IsLinked graph.now hosts.now }
    ensures { IfOk result (λ bytes. IsCompiled graph.now hosts.now bytes.items) }
{
    let scopes = resolve(alloc, graph)?;
    let namespaces = namespaces_of::<Declared>(alloc, graph, hosts)?;
    let core = core_of(alloc, graph, &scopes, namespaces.as_slice())?;
    written_core(alloc, graph.modules.as_slice(), &core, hosts)
}
