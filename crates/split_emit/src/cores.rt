//! The core of a graph.

ghost use Rattle.std.specs.Prelude.{◌≡◌, IfOk};
ghost use Rattle.scope_analysis.specs.Answers.{AreScopes};
ghost use Rattle.split_emit.specs.Split.{core_of, passed};

use core_ast::Core;
use es6_ast::Graph;
use module_lowering::NamespaceEntries;
use pipeline::lower_trees::lower;
use pipeline::{order_of, passed};
use scope_analysis::Scopes;
use shared_cells::{share, without_holder};
use std::alloc::{AllocError, Global};

/// What the passes leave of a core whose names are shared.
fn flat(alloc: Global, core: Core) -> Result<Core, AllocError>
    ensures { IfOk result (λ after. after ≡ passed core) }
{
    let shared = share(alloc, core)?;
    Ok(without_holder(passed(alloc, shared)?))
}

/// The core of a graph with these scopes, whose namespace objects have these names.
pub(crate) fn core_of(
    alloc: Global,
    graph: &Graph,
    scopes: &Scopes,
    namespaces: &[NamespaceEntries],
) -> Result<Core, AllocError>
    requires { AreScopes graph.now scopes.now }
    ensures { IfOk result (λ core. core ≡ core_of graph.now scopes.now namespaces.now) }
{
    let order = order_of(alloc, graph)?;
    let core = lower(alloc, graph, scopes, namespaces, order)?;
    flat(alloc, core)
}
