//! The core of a graph.

ghost use Rattle.std.specs.Prelude.{◌≡◌, IfOk};
ghost use Rattle.lower_walk.specs.Handed.{WalksExpressions, WalksFunctions, WalksStatements};
ghost use Rattle.module_lowering.specs.Modules.{lowered};
ghost use Rattle.scope_analysis.specs.Answers.{AreScopes};

use crate::parts::Lowering;
use crate::walkers::Walkers;
use core_ast::{Core, CoreStat, FunctionId};
use es6_ast::{Expression, Function, Graph, Statement};
use graph_bindings::{known_of, start};
use lower_walk::Around;
use lowering_rules::reference_rules::Reached;
use module_lowering::{FunctionForm, Lowerer, NamespaceEntries};
use scope_analysis::Scopes;
use sqlite_items::Items;
use std::alloc::{AllocError, Global};

/// A linked graph, its scopes, and of each of its modules the names of the namespace object.
#[derive(Clone, Copy)]
pub struct Linked<'a> {
    pub graph: &'a Graph,
    pub scopes: &'a Scopes<'a>,
    pub namespaces: &'a [NamespaceEntries],
}

/// The core of a linked graph whose modules are evaluated in this order, by the walkers of what stands in its modules. It fails where
/// memory runs out, or the numbers of names, or the nodes that may stand inside one another.
pub fn lower<
    E: Fn(Around, &Expression, &mut Lowerer) -> Result<Reached, AllocError>,
    P,
    S: Fn(Around, &Statement, &mut Lowerer) -> Result<Items<CoreStat>, AllocError>,
    F: Fn(Around, &Function, FunctionForm, &mut Lowerer) -> Result<FunctionId, AllocError>,
>(
    alloc: Global,
    linked: Linked,
    order: Items<u32>,
    walkers: Walkers<'_, E, P, S, F>,
) -> Result<Core, AllocError>
    requires of_graph { AreScopes linked.graph.now linked.scopes.now }
    requires expressions { WalksExpressions walkers.room (E.pre walkers.expression.now) (E.post walkers.expression.now) }
    requires statements { WalksStatements walkers.room (S.pre walkers.statement.now) (S.post walkers.statement.now) }
    requires functions { WalksFunctions walkers.room (F.pre walkers.function.now) (F.post walkers.function.now) }
    ensures { IfOk result (λ core. core ≡ lowered linked.entry.graph.now linked.entry.scopes.now linked.entry.namespaces.now order) }
{
    let Linked {
        graph,
        scopes,
        namespaces,
    } = linked;
    let known = known_of(alloc, graph, scopes)?;
    let lowering = Lowering {
        alloc,
        walkers,
        bindings: &known.bindings,
        wanted: &known.wanted,
        count: known.count,
    };
    let mut state = start(alloc, graph, scopes)?;
    let parts = lowering.parts(graph.modules.as_slice(), namespaces, &mut state)?;
    Ok(Core {
        functions: state.functions,
        parts,
        order,
        fresh: state.names.fresh,
    })
}
