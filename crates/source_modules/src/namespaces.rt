//! The namespace objects of modules (ECMA-262, 6th edition, 9.4.6.13, 15.2.1.18): one is made where a module imports it.

ghost use Rattle.std.specs.Prelude.{◌≡◌, IfOk, OnOk};
ghost use Rattle.std.specs.List.{list_any};
ghost use Rattle.module_resolution.specs.Summaries.{AreSummaries};
ghost use Rattle.source_meaning.specs.Modules.{imports_namespace, with_namespace};
ghost use Rattle.source_modules.specs.Importing.{namespace_imported};
ghost use Rattle.source_moves.specs.Seen.{state_of};

use crate::imports::{NAMESPACE, home_of};
use es_operation_steps::made_namespace;
use es_value::Value;
use es6_ast::{Graph, ImportedNames, Item, LoadedModule, Request};
use module_endings::Summary;
use source_exports::namespace_of;
use source_moves::{PendingWork, initialize};
use source_state::State;
use std::alloc::{AllocError, Global};

/// Whether an item imports the namespace of the module with this number.
fn namespace_imported(number: u32, requests: &[Request], item: &Item) -> bool
    ensures { result ≡ namespace_imported number requests.now item.now }
{
    match item {
        Item::Import {
            names: ImportedNames::Namespace(_),
            from,
            ..
        } => match home_of(requests, from) {
            None => false,
            Some(home) => number == home,
        },
        _ => false,
    }
}

/// Whether a module imports the namespace of the module with this number.
fn imports_namespace(number: u32, loaded: &LoadedModule) -> bool
    ensures { result ≡ imports_namespace number loaded.now }
{
    for item in loaded.tree.items.as_slice() {
        if namespace_imported(number, loaded.requests.as_slice(), item) {
            return true;
        }
    }
    false
}

fn is_imported(number: u32, modules: &[LoadedModule]) -> bool
    ensures { result ≡ list_any (imports_namespace number) modules.now }
{
    for loaded in modules {
        if imports_namespace(number, loaded) {
            return true;
        }
    }
    false
}

/// Makes the namespace object of a module, if a module imports it. `known` has the summaries of the graph's modules.
pub(crate) fn with_namespace<'a, W: PendingWork<'a>>(
    alloc: Global,
    graph: &'a Graph,
    known: &'a [Summary],
    number: u32,
    st: &mut State<'a, W>,
) -> Result<(), AllocError>
    requires { AreSummaries graph.now.modules known.now }
    ensures { OnOk result (state_of W.seen st.new ≡ with_namespace graph.now number (state_of W.seen st.old)) }
{
    if !is_imported(number, graph.modules.as_slice()) {
        return Ok(());
    }
    let exports = namespace_of(alloc, graph, known, number)?;
    let place = st.namespaces.len();
    let id = made_namespace(alloc, &mut st.heap, place)?;
    st.namespaces.push(exports)?;
    initialize(alloc, NAMESPACE, Value::Object(id), st);
    Ok(())
}
