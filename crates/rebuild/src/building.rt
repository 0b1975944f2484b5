//! Builds, one after another.

ghost use Rattle.std.specs.Prelude.{◌≡◌, ◌≤◌, ℕ, List, None, Some, IfOk, OnErr, OnOk, map, option_map};
ghost use Rattle.rebuild.specs.Files.{AreReadOf, IsReadOf};

use crate::built::{Built, take_apart};
use crate::fault::RebuildFault;
use crate::relinking::RelinksModules;
use crate::shelf::{KeptModules, Shelf, keep_all};
use es_outside::{Files, HostNames};
use module_loading::{ByFiles, FindsFiles, LoadFault, Loads, Unread, load_from};
use sqlite_items::Items;
use std::alloc::{AllocError, Global};
use std::collections::BTreeMap;
use std::mem;

/// What builds again: the modules that are kept, by the paths of their files, and the graph of the last build, whose modules are kept
/// too.
#[derive(Drop)]
pub struct Rebuild<G: RelinksModules> {
    kept: KeptModules<G>,
    built: Option<Built<G>>,
}

/// The paths of the modules that were read for a build, in load order, or its first fault.
type Parsed<G> = Result<
    Vec<String>,
    RebuildFault<<G as module_loading::ReadsModules>::Fault, <G as RelinksModules>::LinkFault>,
>;

impl<G: RelinksModules> Rebuild<G> {
    ghost use Rattle.es_outside.specs.Counts.{CountRose};
    ghost use Rattle.rebuild.specs.Building.{BuildsTo, HasFailedRead};
    ghost use Rattle.rebuild.specs.Keeping.{Accepts, IsCleared, KeepsOut, Refuses, UnlessNoMemory, graph_in, keeps};

    /// Nothing is kept, and nothing is built. It takes no memory.
    pub fn new(alloc: Global) -> Rebuild<G>
        ensures kept { (path : List ℕ) → keeps result path ≡ None }
        ensures graph { graph_in result ≡ None }
    {
        Rebuild {
            kept: BTreeMap::new(alloc),
            built: None,
        }
    }

    /// The graph of the last build. There is none where nothing was built, or the last build was refused.
    pub fn graph(&self) -> Option<&G::Graph>
        ensures { option_map (λ graph. graph.now) result ≡ graph_in self.now }
    {
        match &self.built {
            None => None,
            Some(built) => Some(built.graph()),
        }
    }

    /// Builds the graph of an entry, and answers the paths of the modules that were read for it, in load order. After a build, a refused
    /// one too, each module of it that passed its checks is kept; where memory runs out it isn't said which are.
    pub fn build<F: Files>(
        &mut self,
        alloc: Global,
        files: &mut F,
        entry: &str,
        hosts: &HostNames,
    ) -> Parsed<G>
        ensures builds { BuildsTo G.reads G.requests G.shows G.refuses G.requested G.graph_of G.links G.unlinked
            (F.files files.old) entry.now hosts.now (keeps self.old) (keeps self.new) (graph_in self.new) result }
        ensures refused { OnErr result (graph_in self.new ≡ None) }
        ensures unchanged { F.files files.new ≡ F.files files.old }
        ensures no_fall { F.faults files.old ≤ F.faults files.new }
        ensures failed { HasFailedRead result → CountRose (F.faults files.old) (F.faults files.new) }
    {
        self.build_by::<F, ByFiles>(alloc, files, entry, hosts)
    }

    /// The same of files that are read in some other way.
    pub fn build_by<F, W: FindsFiles<F>>(
        &mut self,
        alloc: Global,
        files: &mut F,
        entry: &str,
        hosts: &HostNames,
    ) -> Parsed<G>
        ensures builds { BuildsTo G.reads G.requests G.shows G.refuses G.requested G.graph_of G.links G.unlinked
            (W.files files.old) entry.now hosts.now (keeps self.old) (keeps self.new) (graph_in self.new) result }
        ensures refused { OnErr result (graph_in self.new ≡ None) }
        ensures stays { W.stays files.old files.new }
        ensures unchanged { W.files files.new ≡ W.files files.old }
        ensures no_fall { W.faults files.old ≤ W.faults files.new }
        ensures failed { HasFailedRead result → CountRose (W.faults files.old) (W.faults files.new) }
    {
        let mut shelf = self.shelf(alloc)?;
        let Loads { modules, ended } = load_from::<F, W, G, Shelf<G>>(
            alloc, files, &mut shelf, entry,
        );
        match ended {
            Ok(()) => self.accept(alloc, shelf, modules, hosts),
            Err(fault) => self.refuse(alloc, shelf, modules, fault),
        }
    }

    /// Keeps the modules that passed before a fault.
    fn refuse(
        &mut self,
        alloc: Global,
        shelf: Shelf<G>,
        modules: Items<G::Module>,
        fault: LoadFault<G::Fault>,
    ) -> Parsed<G>
        requires read { UnlessNoMemory fault (AreReadOf G.reads shelf.out modules) }
        requires none { self.old.built ≡ None }
        ensures refuses { Refuses fault shelf (keeps self.new) result }
        ensures none { graph_in self.new ≡ None }
    {
        match fault {
            LoadFault::OutOfMemory => Err(RebuildFault::OutOfMemory),
            fault => {
                self.keep(alloc, shelf, modules)?;
                Err(RebuildFault::Load(fault))
            }
        }
    }

    /// All that is kept, with no graph left.
    fn shelf(&mut self, alloc: Global) -> Result<Shelf<G>, AllocError>
        ensures shelf { IfOk result (λ shelf. IsCleared (keeps self.old) shelf) }
        ensures none { self.new.built ≡ None }
    {
        let mut kept = mem::replace(&mut self.kept, BTreeMap::new(alloc));
        if let Some(built) = self.built.take() {
            let (sources, modules) = built.take_apart(alloc)?;
            keep_all::<G>(alloc, &mut kept, sources, modules)?;
        }
        Ok(Shelf {
            kept,
            out: Items::new(alloc),
            parsed: Vec::new(alloc),
        })
    }

    /// Links the graph of these modules, which are out, and keeps it, or the modules where it is refused.
    fn accept(
        &mut self,
        alloc: Global,
        shelf: Shelf<G>,
        modules: Items<G::Module>,
        hosts: &HostNames,
    ) -> Parsed<G>
        requires read { IsReadOf G.reads G.requests G.requested shelf.out modules }
        requires none { self.old.built ≡ None }
        ensures accepts { Accepts G.links G.unlinked (G.graph_of modules) hosts.now shelf
            (keeps self.new) (graph_in self.new) result }
        ensures none { OnErr result (graph_in self.new ≡ None) }
    {
        let mut graph = G::graph(modules);
        match G::link(alloc, &mut graph, hosts) {
            Ok(()) => Ok(self.hold(shelf, graph)),
            Err(Unread::OutOfMemory) => Err(RebuildFault::OutOfMemory),
            Err(Unread::Refused(fault)) => {
                let modules = take_apart::<G>(alloc, graph)?;
                self.keep(alloc, shelf, modules)?;
                Err(RebuildFault::Link(fault))
            }
        }
    }

    /// Holds a graph, whose modules are out.
    fn hold(&mut self, shelf: Shelf<G>, graph: G::Graph) -> Vec<String>
        requires { AreReadOf G.reads shelf.out (map G.opened (G.modules_in graph)) }
        ensures parsed { result ≡ shelf.parsed }
        ensures graph { graph_in self.new ≡ Some graph }
        ensures kept { KeepsOut shelf (keeps self.new) }
    {
        let Shelf { kept, out, parsed } = shelf;
        self.kept = kept;
        self.built = Some(Built::new(graph, out));
        parsed
    }

    /// Keeps the modules that are out.
    fn keep(
        &mut self,
        alloc: Global,
        shelf: Shelf<G>,
        modules: Items<G::Module>,
    ) -> Result<(), AllocError>
        requires read { AreReadOf G.reads shelf.out modules }
        requires none { self.old.built ≡ None }
        ensures kept { OnOk result (KeepsOut shelf (keeps self.new)) }
        ensures none { self.new.built ≡ None }
    {
        let Shelf { mut kept, out, .. } = shelf;
        keep_all::<G>(alloc, &mut kept, out, modules)?;
        self.kept = kept;
        Ok(())
    }
}
