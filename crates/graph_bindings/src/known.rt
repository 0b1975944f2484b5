//! What is known of a graph before its modules are lowered.

ghost use Rattle.std.specs.Prelude.{◌≡◌, ℕ, nat_eq, length, map, IfOk};
ghost use Rattle.indexmap.specs.IndexSet.{contains};
ghost use Rattle.graph_bindings.specs.Counts.{offsets_at};
ghost use Rattle.graph_bindings.specs.Wanted.{are_wanted};
ghost use Rattle.module_lowering.specs.Modules.{bindings_count, bindings_of, first_names, imported_spaces, is_wanted, start};

use crate::counts::{Offsets, hints_of, offsets_of, push_unnamed};
use crate::numbering::Numbering;
use crate::spaces::{Spaces, all_spaces};
use crate::wanted::wanted_of;
use core_ast::Fresh;
use es6_ast::Graph;
use indexmap::IndexSet;
use lower_walk::lower_names::Bindings;
use lowering_rules::Names;
use module_lowering::{Lowerer, Seen};
use scope_analysis::Scopes;
use sqlite_items::Items;
use std::alloc::{AllocError, Global};

/// What names stand for, by the namespaces that each module imports.
fn bindings_of<'a>(
    alloc: Global,
    graph: &'a Graph,
    scopes: &'a Scopes<'a>,
    spaces: &[Spaces],
    offsets: Offsets,
) -> Result<Bindings<'a>, AllocError>
    requires modules { length graph.now.modules ≡ length scopes.now.modules.items }
    requires spaces { spaces.now ≡ map imported_spaces graph.now.modules }
    requires offsets { offsets ≡ offsets_at scopes.now }
    ensures { IfOk result (λ b. b ≡ bindings_of graph.now scopes.now) }
{
    let Offsets { offsets, count } = offsets;
    let numbering = Numbering {
        scopes,
        offsets: offsets.as_slice(),
        count,
        spaces,
    };
    let meanings = numbering.all_meanings(alloc, graph.modules.len())?;
    Ok(Bindings::new(scopes, offsets, meanings))
}

fn first_names(alloc: Global, graph: &Graph, scopes: &Scopes) -> Result<Fresh, AllocError>
    requires { length graph.now.modules ≡ length scopes.now.modules.items }
    ensures { IfOk result (λ f. f ≡ first_names graph.now scopes.now) }
{
    let modules = graph.modules.len();
    let mut hints = hints_of(alloc, scopes, modules)?;
    push_unnamed(modules, &mut hints)?;
    Ok(Fresh { hints })
}

/// No name is drawn and no function is made yet.
pub fn start(alloc: Global, graph: &Graph, scopes: &Scopes) -> Result<Lowerer, AllocError>
    requires { length graph.now.modules ≡ length scopes.now.modules.items }
    ensures { IfOk result (λ state. state ≡ start graph.now scopes.now) }
{
    let fresh = first_names(alloc, graph, scopes)?;
    Ok(Lowerer {
        names: Names {
            fresh,
            locals: Items::new(alloc),
        },
        functions: Items::new(alloc),
        seen: Seen {
            this: false,
            arguments: false,
        },
    })
}

/// What is known of a graph before its parts are made: what names stand for, how many bindings there are, and the modules whose
/// namespaces are imported.
#[derive(Drop)]
pub struct Known<'a> {
    pub bindings: Bindings<'a>,
    pub count: u32,
    pub wanted: IndexSet<u32>,
}

fn known_by<'a>(
    alloc: Global,
    graph: &'a Graph,
    scopes: &'a Scopes<'a>,
    spaces: &[Spaces],
) -> Result<Known<'a>, AllocError>
    requires modules { length graph.now.modules ≡ length scopes.now.modules.items }
    requires spaces { spaces.now ≡ map imported_spaces graph.now.modules }
    ensures bindings { IfOk result (λ k. k.bindings ≡ bindings_of graph.now scopes.now) }
    ensures count { IfOk result (λ k. k.count ≡ bindings_count scopes.now) }
    ensures wanted { IfOk result (λ k. (n : ℕ) → contains nat_eq k.wanted n ≡ are_wanted n spaces.now) }
{
    let offsets = offsets_of(alloc, scopes, graph.modules.len())?;
    let count = offsets.count;
    let bindings = bindings_of(alloc, graph, scopes, spaces, offsets)?;
    let wanted = wanted_of(alloc, spaces)?;
    Ok(Known {
        bindings,
        count,
        wanted,
    })
}

/// What is known of a graph with these scopes.
#[tactic(auto, using(crate::proofs::Laws::wanted_by))]
pub fn known_of<'a>(
    alloc: Global,
    graph: &'a Graph,
    scopes: &'a Scopes<'a>,
) -> Result<Known<'a>, AllocError>
    requires { length graph.now.modules ≡ length scopes.now.modules.items }
    ensures bindings { IfOk result (λ k. k.bindings ≡ bindings_of graph.now scopes.now) }
    ensures count { IfOk result (λ k. k.count ≡ bindings_count scopes.now) }
    ensures wanted { IfOk result (λ k. (n : ℕ) → contains nat_eq k.wanted n ≡ is_wanted graph.now.modules n) }
{
    let spaces = all_spaces(alloc, graph.modules.as_slice())?;
    known_by(alloc, graph, scopes, spaces.as_slice())
}
