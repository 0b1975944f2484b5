//! The state in which a script starts.

ghost use Rattle.std.specs.Prelude.{◌≡◌, ◌∷◌, [], IfOk, length, map};
ghost use Rattle.std.specs.List.{flat_map};
ghost use Rattle.es_realm.specs.Realms.{host_functions};
ghost use Rattle.script_core.specs.Meaning.{global_record, instantiated, own_record, script_state, start_context};

use crate::bindings::{global_record, own_record};
use crate::rows::ScriptState;
use core_ast::{Core, CorePart};
use core_state::{Binding, Context, Environment, Stack, State, Stats, Table};
use es_outside::{HostNames, Site};
use es_realm::Realm5;
use es_value::{ObjId, Value};
use script_core::Nothing;
use sqlite_items::Items;
use std::alloc::{AllocError, Global};

/// The global record, and before it that of the script's own names.
fn records(
    alloc: Global,
    core: &Core,
    hosts: &HostNames,
    functions: &[ObjId],
) -> Result<Table<Items<Binding<Nothing>>>, AllocError>
    requires { functions.now ≡ host_functions (length hosts.now) }
    ensures { IfOk result (λ records. records ≡ global_record hosts.now 0 core.now.fresh.hints ∷ flat_map own_record core.now.parts ∷ []) }
{
    let global = global_record(alloc, core.fresh.hints.as_slice(), hosts, functions)?;
    let own = own_record(alloc, core.parts.as_slice())?;
    let mut records = Table::new(alloc);
    records.push(global)?;
    records.push(own)?;
    Ok(records)
}

fn environment(alloc: Global) -> Result<Environment, AllocError>
    ensures { IfOk result (λ environment. environment ≡ 1 ∷ 0 ∷ []) }
{
    let mut records = Vec::new(alloc);
    records.push(0)?;
    records.push(1)?;
    Environment::of(alloc, records)
}

/// The context of a script (10.3).
fn start_context<'a>(alloc: Global) -> Result<Context<'a, Nothing, (), Nothing>, AllocError>
    ensures { IfOk result (λ context. context ≡ start_context) }
{
    Ok(Context {
        environment: environment(alloc)?,
        receiver: Value::Undefined,
        site: Site { module: 0, at: 0 },
        own: (),
        frames: Stack::new(alloc),
    })
}

/// What is to be run: of each part its functions are made before its statements run (10.5).
fn bodies<'a>(alloc: Global, parts: &'a [CorePart]) -> Result<Stack<Stats<'a>>, AllocError>
    ensures { IfOk result (λ ahead. ahead ≡ map instantiated parts.now) }
{
    let mut ahead = Stack::new(alloc);
    let mut count = parts.len();
    'below: while count > 0 {
        count -= 1;
        let part = &parts[count];
        ahead.push(Stats::both(part.instantiate.as_slice(), part.body.as_slice()))?;
    }
    Ok(ahead)
}

/// The state in which a script starts, read as this core: in the fresh realm of the 5.1 edition, with one function for each host. The
/// names that it declares are none of the library's and the hosts'.
///
/// # Errors
///
/// Only want of memory, or of numbers of 32 bits for names.
pub fn script_state<'a>(
    alloc: Global,
    core: &'a Core,
    hosts: &HostNames,
) -> Result<ScriptState<'a>, AllocError>
    ensures { IfOk result (λ st. st ≡ script_state hosts.now core.now) }
{
    let (heap, realm) = Realm5::start(alloc, hosts)?;
    let records = records(alloc, core, hosts, realm.hosts.as_slice())?;
    let context = start_context(alloc)?;
    let ahead = bodies(alloc, core.parts.as_slice())?;
    Ok(State {
        heap,
        records,
        closures: Table::new(alloc),
        context,
        callers: Stack::new(alloc),
        ahead,
        store: (),
    })
}
