//! Building graphs again after edits.

use crate::linking::link;
use crate::loading::Modules;
use es_outside::HostNames;
use es6_ast::{Graph, LoadedModule};
use module_links::LinkFault;
use module_loading::Unread;
use rebuild::{RelinksModules, open_requests};
use sqlite_items::Items;
use std::alloc::{AllocError, Global};

/// Builds of graphs, one after another, each of which reads only modules that are new or whose bytes have changed.
pub type Rebuild = rebuild::Rebuild<Modules>;

impl RelinksModules for Modules {
    ghost use Rattle.std.specs.Prelude.{◌≡◌, ℕ, List, map};
    ghost use Rattle.es6_static_semantics.specs.Graphs.{IsLoaded};
    ghost use Rattle.module_loading.specs.Files.{Told};
    ghost use Rattle.module_loading.specs.Loading.{IsGraph};
    ghost use Rattle.rebuild.specs.Files.{IsLoadedOf};
    ghost use Rattle.module_linker.specs.module_checks.Reading.{IsRead};
    ghost use Rattle.module_linker.specs.Loading.{asked, with_requests};
    ghost use Rattle.module_links.specs.Links.{IsRefusal};
    ghost use Rattle.module_linker.specs.Rebuilding.{LinksTo, opened};

    type Graph = Graph;

    type LinkFault = LinkFault;

    ghost graph_of = { λ modules. record { modules = modules } };

    ghost is_loaded = { IsLoaded };

    ghost links = { LinksTo };

    ghost unlinked = { IsRefusal };

    ghost modules_in = { λ graph. graph.modules };

    ghost opened = { opened };

    fn graph(modules: Items<LoadedModule>) -> Graph
        requires { IsLoadedOf IsRead asked with_requests modules }
        ensures graph { result ≡ record { modules = modules } }
        ensures loaded { IsLoaded result }
        ensures apart { (told : Told) (entry : List ℕ)
            (is : IsGraph told IsRead asked entry with_requests modules) →
            map opened result.modules ≡ map (λ m. m.made) is.modules }
    {
        Graph { modules }
    }

    fn link(alloc: Global, graph: &mut Graph, hosts: &HostNames) -> Result<(), Unread<LinkFault>> {
        match link(alloc, graph, hosts) {
            Ok(()) => Ok(()),
            Err(LinkFault::OutOfMemory) => Err(Unread::OutOfMemory),
            Err(fault) => Err(Unread::Refused(fault)),
        }
    }

    fn modules(graph: Graph) -> Items<LoadedModule> {
        let Graph { modules } = graph;
        modules
    }

    fn opened(alloc: Global, made: LoadedModule) -> Result<LoadedModule, AllocError> {
        let requests = open_requests(alloc, made.requests.as_slice())?;
        let LoadedModule {
            path,
            lines,
            tree,
            ..
        } = made;
        Ok(LoadedModule {
            path,
            lines,
            tree,
            requests,
            endings: Items::new(alloc),
        })
    }
}
