//! Loading the graph of an entry from files.

ghost use Rattle.std.specs.Prelude.{◌≡◌, ◌≤◌, IfOk};
ghost use Rattle.es_outside.specs.Counts.{CountRose};
ghost use Rattle.es6_static_semantics.specs.Graphs.{IsLoaded};
ghost use Rattle.module_linker.specs.module_checks.Reading.{IsRead};
ghost use Rattle.module_linker.specs.Loading.{LoadsGraph, asked, refuses, shows, with_requests};
ghost use Rattle.module_loading.specs.Loading.{HasReadFault};

use crate::module_checks::ModuleFault;
use crate::reading::read_module;
use es_outside::Files;
use es_text::Place;
use es6_ast::{Graph, LoadedModule, Request};
use module_loading::{LoadFault, ReadsModules, Unread};
use module_places::place_of;
use sqlite_items::Items;
use std::alloc::Global;

/// The graph of the modules that an entry requests, one through another: the entry first, and depth first by requests, each path
/// once. It is refused at the first check that fails.
pub fn load<F: Files>(
    alloc: Global,
    files: &mut F,
    entry: &str,
) -> Result<Graph, LoadFault<ModuleFault>>
    ensures loads { LoadsGraph (F.files files.old) entry.now result }
    ensures loaded { IfOk result (λ graph. IsLoaded graph) }
    ensures unchanged { F.files files.new ≡ F.files files.old }
    ensures no_fall { F.faults files.old ≤ F.faults files.new }
    ensures failed { HasReadFault result → CountRose (F.faults files.old) (F.faults files.new) }
{
    let modules = module_loading::load::<F, Modules>(alloc, files, entry)?;
    Ok(Graph { modules })
}

/// What reads the modules of a graph, with all checks of one module.
pub struct Modules;

impl ReadsModules for Modules {
    type Module = LoadedModule;

    type Fault = ModuleFault;

    ghost reads = { IsRead };

    ghost refuses = { refuses };

    ghost requests = { asked };

    ghost requested = { with_requests };

    ghost shows = { shows };

    fn read(alloc: Global, path: &str, bytes: &[u8]) -> Result<LoadedModule, Unread<ModuleFault>> {
        match read_module(alloc, path, bytes) {
            Ok(loaded) => Ok(loaded),
            Err(ModuleFault::OutOfMemory) => Err(Unread::OutOfMemory),
            Err(fault) => Err(Unread::Refused(fault)),
        }
    }

    fn requests(loaded: &LoadedModule) -> &[Request] {
        loaded.requests.as_slice()
    }

    fn place(loaded: &LoadedModule, at: u32) -> Place {
        place_of(&loaded.lines, at)
    }

    fn with_requests(loaded: LoadedModule, numbered: Items<Request>) -> LoadedModule {
        let LoadedModule {
            path,
            lines,
            tree,
            endings,
            ..
        } = loaded;
        LoadedModule {
            path,
            lines,
            tree,
            requests: numbered,
            endings,
        }
    }
}
