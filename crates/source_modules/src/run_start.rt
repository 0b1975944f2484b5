//! Where a run of modules starts: all modules are instantiated, and none is evaluated (ECMA-262, 6th edition, 15.2.1.16.5).

ghost use Rattle.std.specs.Prelude.{◌≡◌, IfOk, map};
ghost use Rattle.es_realm.specs.Realms.{fresh6};
ghost use Rattle.es6_static_semantics.specs.Findings.{joined};
ghost use Rattle.module_resolution.specs.Summaries.{AreSummaries};
ghost use Rattle.source_meaning.specs.Modules.{bare, bare_context, due_of, request_homes, start};
ghost use Rattle.source_meaning.specs.State.{Done, Hand};
ghost use Rattle.source_meaning.specs.Steps.{with_control};
ghost use Rattle.source_modules.specs.Instances.{due_in, record_made};
ghost use Rattle.source_modules.specs.Ones.{IsOnly};
ghost use Rattle.source_moves.specs.Seen.{context_of, state_of};

use crate::instantiation::instantiated;
use crate::records::module_record;
use core_state::{Environment, Stack, Table};
use es_heap::Heap;
use es_outside::Site;
use es_realm::Realm6;
use es_value::Value;
use es6_ast::{Graph, LoadedModule, Request};
use module_endings::Summary;
use module_order::evaluation_order;
use source_moves::PendingWork;
use source_state::{Context, Due, EnvironmentRecord, Nodes, Own, State};
use sqlite_items::Items;
use std::alloc::{AllocError, Global};

/// The modules that a module requests, in the order of its requests.
fn request_homes(alloc: Global, loaded: &LoadedModule) -> Result<Items<u32>, AllocError>
    ensures { IfOk result (λ homes. homes ≡ request_homes loaded.now) }
{
    let mut homes = Items::new(alloc);
    for request in loaded.requests.as_slice() {
        if let Some(home) = request.module {
            homes.push(home)?;
        }
    }
    Ok(homes)
}

fn all_homes(alloc: Global, modules: &[LoadedModule]) -> Result<Items<Items<u32>>, AllocError>
    ensures { IfOk result (λ homes. homes ≡ map request_homes modules.now) }
{
    let mut homes = Items::new(alloc);
    for loaded in modules {
        homes.push(request_homes(alloc, loaded)?)?;
    }
    Ok(homes)
}

/// The module with this number, to be evaluated.
fn due_of<'a>(graph: &'a Graph, number: u32) -> Option<Due<'a>>
    ensures { IsOnly result (due_of graph.now number) }
{
    match graph.modules.as_slice().get(number as usize) {
        None => None,
        Some(loaded) => Some(Due {
            home: number,
            items: Nodes::of(&loaded.tree.items),
        }),
    }
}

/// The modules with these numbers, to be evaluated one after the other.
fn all_due<'a>(alloc: Global, graph: &'a Graph, order: &[u32]) -> Result<Stack<Due<'a>>, AllocError>
    ensures { IfOk result (λ due. due ≡ joined (due_of graph.now) order.now) }
{
    let mut all = Stack::new(alloc);
    let mut count = order.len();
    'below: while count > 0 {
        count -= 1;
        if let Some(due) = due_of(graph, order[count]) {
            all.push(due)?;
        }
    }
    Ok(all)
}

/// The modules of a graph, in the order in which they are evaluated.
fn due_in<'a>(alloc: Global, graph: &'a Graph) -> Result<Stack<Due<'a>>, AllocError>
    ensures { IfOk result (λ due. due ≡ due_in graph.now) }
{
    let homes = all_homes(alloc, graph.modules.as_slice())?;
    let order = evaluation_order(alloc, homes.as_slice(), 0)?;
    all_due(alloc, graph, order.as_slice())
}

fn module_records<'a>(
    alloc: Global,
    modules: &'a [LoadedModule],
) -> Result<Table<EnvironmentRecord<'a>>, AllocError>
    ensures { IfOk result (λ records. records ≡ map record_made modules.now) }
{
    let mut records = Table::new(alloc);
    for loaded in modules {
        records.push(module_record(alloc, loaded)?)?;
    }
    Ok(records)
}

fn bare_context<'a, W: PendingWork<'a>>(alloc: Global) -> Result<Context<W>, AllocError>
    ensures { IfOk result (λ context. context_of W.seen context ≡ bare_context) }
{
    Ok(Context {
        environment: Environment::new(alloc)?,
        home: 0,
        own: Own {
            this_record: 0,
            callee: Value::Undefined,
            home: Value::Undefined,
            target: Value::Undefined,
        },
        place: Site { module: 0, at: 0 },
        frames: Stack::new(alloc),
    })
}

/// The heap in which a run starts: the fresh realm of the 6th edition.
fn fresh_heap(alloc: Global) -> Result<Heap, AllocError>
    ensures { IfOk result (λ heap. heap ≡ fresh6) }
{
    let (heap, _realm) = Realm6::start(alloc)?;
    Ok(heap)
}

/// The state before anything is instantiated.
fn bare<'a, W: PendingWork<'a>>(alloc: Global, graph: &'a Graph) -> Result<State<'a, W>, AllocError>
    ensures { IfOk result (λ st. state_of W.seen st ≡ bare graph.now) }
{
    let heap = fresh_heap(alloc)?;
    let records = module_records(alloc, graph.modules.as_slice())?;
    let context = bare_context(alloc)?;
    let due = due_in(alloc, graph)?;
    Ok(State {
        heap,
        records,
        closures: Table::new(alloc),
        generators: Table::new(alloc),
        namespaces: Table::new(alloc),
        templates: Table::new(alloc),
        statics: Table::new(alloc),
        context,
        callers: Stack::new(alloc),
        due,
    })
}

/// Lets a state go.
fn let_go<'a, W: PendingWork<'a>>(st: State<'a, W>) {
    let State {
        heap: _,
        records: _,
        closures: _,
        generators: _,
        namespaces: _,
        templates: _,
        statics: _,
        context: _,
        callers: _,
        due: _,
    } = st;
}

/// The state in which the run of a graph starts, which begins by handing on that nothing was done yet. `known` has the summaries of the
/// graph's modules.
///
/// # Errors
///
/// Only want of memory, or of numbers of 32 bits for modules.
pub fn start<'a, W: PendingWork<'a>>(
    alloc: Global,
    graph: &'a Graph,
    known: &'a [Summary],
) -> Result<State<'a, W>, AllocError>
    requires { AreSummaries graph.now.modules known.now }
    ensures { IfOk result (λ st. with_control (Hand Done) (state_of W.seen st) ≡ start graph.now) }
{
    let mut st = bare(alloc, graph)?;
    match instantiated(alloc, graph, known, &mut st) {
        Ok(()) => Ok(st),
        Err(error) => {
            let_go(st);
            Err(error)
        }
    }
}
