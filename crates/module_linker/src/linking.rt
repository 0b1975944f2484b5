//! Linking: each name that a module of the graph wants gets the place where it ends.

ghost use Rattle.std.specs.Prelude.{◌≡◌, IfErr, OnErr, OnOk};
ghost use Rattle.es6_static_semantics.specs.Graphs.{IsLinked, IsLoaded};
ghost use Rattle.module_links.specs.Links.{IsRefusal};
ghost use Rattle.module_linker.specs.Linking.{IsRelinked};

use declared_names::declared_names;
use es_outside::HostNames;
use es6_ast::{EndOf, Graph, LoadedModule, Statement};
use module_links::{LinkFault, Links, endings_of, relink};
use module_summaries::Declares;
use shared_text::Name;
use sqlite_items::Items;
use std::alloc::{AllocError, Global};

/// Links a loaded graph: its modules get the endings of each imported name and of each name of an `export { .. } from`, in text
/// order, and nothing else of it changes. It is refused at the first name that ends nowhere or in more than one place, modules in
/// load order and names by place, and is then as before, as it is where memory runs out.
pub fn link(alloc: Global, graph: &mut Graph, hosts: &HostNames) -> Result<(), LinkFault>
    requires { IsLoaded graph.old }
    ensures linked { OnOk result (IsLinked graph.new hosts.now) }
    ensures relinked { OnOk result (IsRelinked graph.old hosts.now graph.new) }
    ensures refused { IfErr result (λ fault. IsRefusal graph.old hosts.now fault) }
    ensures unchanged { OnErr result (graph.new ≡ graph.old) }
{
    let endings = endings_of::<Declared>(alloc, graph, hosts)?;
    let room = Vec::with_capacity(alloc, graph.modules.len())?;
    relink::<Linked>(&mut graph.modules, endings, room);
    Ok(())
}

/// What a declaration declares, by the walk of the early errors' definitions.
pub(crate) struct Declared;

impl Declares for Declared {
    fn declared(alloc: Global, statement: &Statement) -> Result<Items<Name>, AllocError> {
        declared_names(alloc, statement)
    }
}

/// Modules with their trees.
struct Linked;

impl Links for Linked {
    type Module = LoadedModule;

    ghost linked_to = { λ loaded endings. record loaded { endings = endings } };

    fn linked(loaded: LoadedModule, endings: Items<EndOf>) -> LoadedModule {
        let LoadedModule {
            path,
            lines,
            tree,
            requests,
            ..
        } = loaded;
        LoadedModule {
            path,
            lines,
            tree,
            requests,
            endings,
        }
    }
}
