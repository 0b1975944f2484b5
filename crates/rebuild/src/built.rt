//! A graph that is built, with the files of its modules.

ghost use Rattle.std.specs.Prelude.{◌≡◌, IfOk, map};
ghost use Rattle.rebuild.specs.Files.{AreReadOf};

use crate::relinking::RelinksModules;
use crate::source::Source;
use sqlite_items::Items;
use std::alloc::{AllocError, Global};
use std::marker::Model;

/// A linked graph and the files of its modules, in load order. Contracts see the pair of both.
#[derive(Drop)]
pub(crate) struct Built<G: RelinksModules> {
    graph: G::Graph,
    sources: Items<Source>,
}

impl<G: RelinksModules> Model for Built<G> {
    ghost use Rattle.std.specs.Prelude.{ℕ, List, map};
    ghost use Rattle.std.specs.Coded.{coded_ℕ, coded_list, coded×};
    ghost use Rattle.rebuild.specs.Files.{AreReadOf};

    ghost Value = { G.Graph × List (List ℕ × List ℕ) };

    ghost coded = { coded× G.Graph.code (coded_list (coded× (coded_list coded_ℕ) (coded_list coded_ℕ))) };

    ghost view = { λ b. (b.graph, b.sources) };

    ghost invariant = { λ b. AreReadOf G.reads b.sources (map G.opened (G.modules_in b.graph)) };
}

impl<G: RelinksModules> Built<G> {
    pub(crate) fn new(graph: G::Graph, sources: Items<Source>) -> Built<G>
        requires { AreReadOf G.reads sources (map G.opened (G.modules_in graph)) }
        ensures { result ≡ (graph, sources) }
    {
        Built { graph, sources }
    }

    pub(crate) fn graph(&self) -> &G::Graph
        ensures { result.now ≡ self.now.0 }
    {
        &self.graph
    }

    /// The files, and the modules as they were read of them.
    pub(crate) fn take_apart(
        self,
        alloc: Global,
    ) -> Result<(Items<Source>, Items<G::Module>), AllocError>
        ensures files { IfOk result (λ both. both.0 ≡ self.1) }
        ensures modules { IfOk result (λ both. AreReadOf G.reads both.0 both.1) }
    {
        let Built { graph, sources } = self;
        let modules = take_apart::<G>(alloc, graph)?;
        Ok((sources, modules))
    }
}

/// The modules of a graph, as they were read.
pub(crate) fn take_apart<G: RelinksModules>(
    alloc: Global,
    graph: G::Graph,
) -> Result<Items<G::Module>, AllocError>
    ensures { IfOk result (λ modules. modules ≡ map G.opened (G.modules_in graph)) }
{
    let mut modules = G::modules(graph);
    let mut back = Vec::new(alloc);
    while let Some(made) = modules.pop() {
        back.push(G::opened(alloc, made)?)?;
    }
    back.reverse();
    Ok(Items::from_vec(back))
}
