//! The core of a graph.

ghost use Rattle.std.specs.Prelude.{◌≡◌, ◌++◌, map, IfOk, OnOk};
ghost use Rattle.std.specs.List.{filter_map};
ghost use Rattle.module_lowering.specs.Modules.{lowered};
ghost use Rattle.pass_rules.specs.Scopes.{without_scopes};
ghost use Rattle.pipeline.specs.Compiled.{core_of, order_of, requested_modules};
ghost use Rattle.scope_analysis.specs.Answers.{AreScopes};
ghost use Rattle.pass_rules.specs.state_rules.States.{with_machines};
ghost use Rattle.pass_rules.specs.yield_rules.Yields.{with_yields_flat};

use crate::lower_trees::lower;
use core_ast::Core;
use es6_ast::{Graph, LoadedModule, Request};
use gen_flatten::flatten_yields;
use gen_states::machines;
use lower_blocks::flatten_scopes;
use module_lowering::NamespaceEntries;
use module_order::evaluation_order;
use scope_analysis::Scopes;
use sqlite_items::Items;
use std::alloc::{AllocError, Global};

/// The modules that requests name, in their order.
fn named_by(alloc: Global, requests: &[Request]) -> Result<Items<u32>, AllocError>
    ensures { IfOk result (λ numbers. numbers ≡ filter_map (λ r. r.module) requests.now) }
{
    let mut numbers = Items::new(alloc);
    for request in requests {
        if let Some(number) = request.module {
            numbers.push(number)?;
        }
    }
    Ok(numbers)
}

/// Of each module those that it requests.
fn all_named(alloc: Global, modules: &[LoadedModule]) -> Result<Items<Items<u32>>, AllocError>
    ensures { IfOk result (λ graph. graph ≡ map requested_modules modules.now) }
{
    let mut graph = Items::new(alloc);
    for module in modules {
        graph.push(named_by(alloc, module.requests.as_slice())?)?;
    }
    Ok(graph)
}

/// The modules in the order in which they are evaluated (ECMA-262, 6th edition, 15.2.1.16.5).
pub fn order_of(alloc: Global, graph: &Graph) -> Result<Items<u32>, AllocError>
    ensures { IfOk result (λ order. order ≡ order_of graph.now) }
{
    let requests = all_named(alloc, graph.modules.as_slice())?;
    evaluation_order(alloc, requests.as_slice(), 0)
}

/// What the passes leave of a core.
pub fn passed(alloc: Global, core: Core) -> Result<Core, AllocError>
    ensures { IfOk result (λ after. after ≡ with_machines (with_yields_flat (without_scopes core))) }
{
    let flat = flatten_scopes(alloc, core)?;
    let spilled = flatten_yields(alloc, flat)?;
    machines(alloc, spilled)
}

/// The core of a graph with these scopes, whose namespace objects have these names.
pub(crate) fn core_of(
    alloc: Global,
    graph: &Graph,
    scopes: &Scopes,
    namespaces: &[NamespaceEntries],
) -> Result<Core, AllocError>
    requires { AreScopes graph.now scopes.now }
    ensures { IfOk result (λ core. core ≡ core_of graph.now scopes.now namespaces.now) }
{
    let order = order_of(alloc, graph)?;
    let core = lower(alloc, graph, scopes, namespaces, order)?;
    passed(alloc, core)
}
