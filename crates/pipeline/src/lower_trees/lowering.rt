//! The core of a graph.

ghost use Rattle.std.specs.Prelude.{◌≡◌, IfOk};
ghost use Rattle.module_lowering.specs.Modules.{lowered};
ghost use Rattle.scope_analysis.specs.Answers.{AreScopes};

use crate::lower_trees::walkers::{walk_expression, walk_function, walk_pattern, walk_statement};
use core_ast::Core;
use es6_ast::Graph;
use lower_modules::{Linked, Walkers};
use module_lowering::NamespaceEntries;
use scope_analysis::Scopes;
use sqlite_items::Items;
use std::alloc::{AllocError, Global};

/// The core of a linked graph with these scopes, whose namespace objects have these names, and whose modules are evaluated in this
/// order (ECMA-262, 6th edition, 15.2). Err comes only where memory or numbers for names run out.
pub fn lower(
    alloc: Global,
    graph: &Graph,
    scopes: &Scopes,
    namespaces: &[NamespaceEntries],
    order: Items<u32>,
) -> Result<Core, AllocError>
    requires { AreScopes graph.now scopes.now }
    ensures { IfOk result (λ core. core ≡ lowered graph.now scopes.now namespaces.now order) }
{
    let linked = Linked {
        graph,
        scopes,
        namespaces,
    };
    let walkers = Walkers {
        room: u64::MAX,
        expression: &walk_expression,
        pattern: &walk_pattern,
        statement: &walk_statement,
        function: &walk_function,
    };
    lower_modules::lower(alloc, linked, order, walkers)
}
