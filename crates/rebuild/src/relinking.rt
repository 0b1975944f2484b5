//! What links graphs, and takes them apart.

use es_outside::HostNames;
use module_loading::{ReadsModules, Unread};
use sqlite_items::Items;
use std::alloc::{AllocError, Global};

/// What reads modules, links a graph of them, and gives its modules back as they were read.
pub trait RelinksModules: ReadsModules {
    ghost use Rattle.std.specs.Prelude.{◌≡◌, ℕ, List, map, IfOk, OnErr, OnOk};
    ghost use Rattle.module_loading.specs.Files.{Told};
    ghost use Rattle.module_loading.specs.Loading.{IsGraph};
    ghost use Rattle.module_loading.specs.Reading.{ReadsTo};
    ghost use Rattle.rebuild.specs.Files.{IsLoadedOf};

    type Graph: Drop;

    type LinkFault: Drop;

    /// The graph of these modules.
    ghost graph_of: { List Self.Module → Self.Graph };

    /// A graph that may be linked.
    ghost is_loaded: { Self.Graph → Type 0 };

    /// The graph is linked to this one, where the program has hosts of these names.
    ghost links: { Self.Graph → List (List ℕ) → Self.Graph → Type 0 };

    /// It isn't linked, for this fault.
    ghost unlinked: { Self.Graph → List (List ℕ) → Self.LinkFault → Type 0 };

    /// The modules of a graph.
    ghost modules_in: { Self.Graph → List Self.Module };

    /// A module of a graph as it was read: none of its requests names a module, and none of its names has an ending.
    ghost opened: { Self.Module → Self.Module };

    /// The graph of modules that are loaded from files. It comes apart into those that were read.
    fn graph(modules: Items<Self::Module>) -> Self::Graph
        requires { IsLoadedOf Self.reads Self.requests Self.requested modules }
        ensures graph { result ≡ graph_of modules }
        ensures loaded { is_loaded result }
        ensures apart { (told : Told) (entry : List ℕ)
            (is : IsGraph told Self.reads Self.requests entry Self.requested modules) →
            map opened (modules_in result) ≡ map (λ m. m.made) is.modules };

    /// Links a graph. One that is refused is as before.
    fn link(
        alloc: Global,
        graph: &mut Self::Graph,
        hosts: &HostNames,
    ) -> Result<(), Unread<Self::LinkFault>>
        requires { is_loaded graph.old }
        ensures linked { OnOk result (links graph.old hosts.now graph.new) }
        ensures apart { OnOk result (map opened (modules_in graph.new) ≡
            map opened (modules_in graph.old)) }
        ensures refused { ReadsTo (λ _. Unit {0}) (unlinked graph.old hosts.now) result }
        ensures unchanged { OnErr result (graph.new ≡ graph.old) };

    fn modules(graph: Self::Graph) -> Items<Self::Module>
        ensures { result ≡ modules_in graph };

    fn opened(alloc: Global, made: Self::Module) -> Result<Self::Module, AllocError>
        ensures { IfOk result (λ it. it ≡ opened made) };
}
