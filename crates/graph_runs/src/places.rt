//! Where the sites of a graph stand: in its modules.

use es_outside::Site;
use es_text::Place;
use es6_ast::{Graph, LoadedModule};
use program_runs::Places;
use run_parts::place_in;

/// Where the sites of a graph stand.
#[derive(Drop)]
pub struct GraphPlaces<'a> {
    pub graph: &'a Graph,
}

impl GraphPlaces<'_> {
    ghost use Rattle.std.specs.Prelude.{◌≡◌, option_map};
    ghost use Rattle.source_meaning.specs.Modules.{module_at};

    /// The module that a site stands in.
    fn module(&self, site: Site) -> Option<&LoadedModule>
        ensures { option_map (λ m. m.now) result ≡ module_at self.now.graph.now site.«module» }
    {
        self.graph.modules.as_slice().get(site.module as usize)
    }
}

impl Places for GraphPlaces<'_> {
    ghost use Rattle.graph_runs.specs.Sites.{sites_of};

    ghost sites = { λ it. sites_of it.graph.now };

    fn path(&self, site: Site) -> &[u8] {
        match self.module(site) {
            None => b"",
            Some(module) => module.path.bytes(),
        }
    }

    fn place(&self, site: Site) -> Place {
        match self.module(site) {
            None => Place { line: 0, column: 0 },
            Some(module) => place_in(&module.lines, site.at),
        }
    }
}
