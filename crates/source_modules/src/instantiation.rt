//! How modules are instantiated (ECMA-262, 6th edition, 15.2.1.16.4): the functions of each are made, and its namespace object.

ghost use Rattle.std.specs.Prelude.{◌≡◌, IfOk, OnOk};
ghost use Rattle.module_resolution.specs.Summaries.{AreSummaries};
ghost use Rattle.source_meaning.specs.Modules.{instantiated, with_item_function, within_module};
ghost use Rattle.source_modules.specs.Instances.{with_item_functions, with_module};
ghost use Rattle.source_moves.specs.Seen.{state_of};

use crate::items::{function_name, item_function};
use crate::namespaces::with_namespace;
use core_state::Environment;
use es_value::Value;
use es6_ast::{Function, Graph, Item, LoadedModule};
use module_endings::Summary;
use source_functions::closed;
use source_moves::{PendingWork, initialize};
use source_state::{Code, Node, Own, State};
use std::alloc::{AllocError, Global};

/// What acts is the code of the module with this number.
pub fn within_module<'a, W: PendingWork<'a>>(
    alloc: Global,
    number: u32,
    st: &mut State<'a, W>,
) -> Result<(), AllocError>
    ensures { OnOk result (state_of W.seen st.new ≡ within_module number (state_of W.seen st.old)) }
{
    let nothing = Environment::new(alloc)?;
    st.context.environment = nothing.with(alloc, number as usize)?;
    st.context.home = number;
    st.context.own = Own {
        this_record: number as usize,
        callee: Value::Undefined,
        home: Value::Undefined,
        target: Value::Undefined,
    };
    Ok(())
}

fn with_item_function<'a, W: PendingWork<'a>>(
    alloc: Global,
    function: &'a Function,
    st: &mut State<'a, W>,
) -> Result<(), AllocError>
    ensures { OnOk result (state_of W.seen st.new ≡ with_item_function (state_of W.seen st.old) function.now) }
{
    let code = Code::PlainCode(Node::of(function));
    let value = closed(alloc, code, Value::Undefined, st)?;
    initialize(alloc, function_name(function).bytes(), value, st);
    Ok(())
}

fn with_item_functions<'a, W: PendingWork<'a>>(
    alloc: Global,
    items: &'a [Item],
    st: &mut State<'a, W>,
) -> Result<(), AllocError>
    ensures { OnOk result (state_of W.seen st.new ≡ with_item_functions items.now (state_of W.seen st.old)) }
{
    for item in items {
        if let Some(function) = item_function(item) {
            with_item_function(alloc, function, st)?;
        }
    }
    Ok(())
}

fn with_module<'a, W: PendingWork<'a>>(
    alloc: Global,
    graph: &'a Graph,
    known: &'a [Summary],
    number: u32,
    loaded: &'a LoadedModule,
    st: &mut State<'a, W>,
) -> Result<(), AllocError>
    requires { AreSummaries graph.now.modules known.now }
    ensures { OnOk result (state_of W.seen st.new ≡ with_module graph.now number loaded.now (state_of W.seen st.old)) }
{
    within_module(alloc, number, st)?;
    with_item_functions(alloc, loaded.tree.items.as_slice(), st)?;
    with_namespace(alloc, graph, known, number, st)
}

fn number(at: usize) -> Result<u32, AllocError>
    ensures { IfOk result (λ number. number ≡ at) }
{
    match u32::try_from(at) {
        Ok(number) => Ok(number),
        Err(_) => Err(AllocError),
    }
}

/// Instantiates all modules of a graph. `known` has their summaries.
#[tactic(auto, using(crate::proofs::Held::next_number))]
pub(crate) fn instantiated<'a, W: PendingWork<'a>>(
    alloc: Global,
    graph: &'a Graph,
    known: &'a [Summary],
    st: &mut State<'a, W>,
) -> Result<(), AllocError>
    requires { AreSummaries graph.now.modules known.now }
    ensures { OnOk result (state_of W.seen st.new ≡ instantiated graph.now 0 graph.now.modules (state_of W.seen st.old)) }
{
    for (at, loaded) in graph.modules.as_slice().iter().enumerate() {
        with_module(alloc, graph, known, number(at)?, loaded, st)?;
    }
    Ok(())
}
