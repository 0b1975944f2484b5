//! The bindings of the two outermost records (ECMA-262, 5.1 edition, 10.2.3 and 15.1): the names of the library and of the hosts, and
//! those that the script declares.

ghost use Rattle.std.specs.Prelude.{◌≡◌, ◌++◌, IfOk, OnOk, length, map};
ghost use Rattle.std.specs.List.{flat_map};
ghost use Rattle.es_realm.specs.Realms.{host_functions};
ghost use Rattle.es_value.specs.declared.value.Value.{Value};
ghost use Rattle.script_core.specs.Meaning.{bound_at_start, global_binding, global_record, host_binding, own_record, user_binding};

use core_ast::{CorePart, ScopedName, Var};
use core_state::{Binding, CoreValue};
use es_outside::HostNames;
use es_realm::{Global as GlobalName, global_of};
use es_value::{ObjId, Value};
use script_core::Nothing;
use shared_text::Name;
use sqlite_items::Items;
use std::alloc::{AllocError, Global};

fn user_binding(var: Var, value: Value, mutable: bool) -> Binding<Nothing>
    ensures { result ≡ user_binding var value mutable }
{
    Binding {
        var,
        value: CoreValue::User(value),
        mutable,
    }
}

/// A name of the library.
fn push_global(
    var: Var,
    global: GlobalName,
    bindings: &mut Items<Binding<Nothing>>,
) -> Result<(), AllocError>
    ensures { OnOk result (bindings.new ≡ bindings.old ++ global_binding var global) }
{
    match global {
        GlobalName::Undefined => bindings.push(user_binding(var, Value::Undefined, false)),
        GlobalName::Object(id) => bindings.push(user_binding(var, Value::Object(id), true)),
        GlobalName::LeftOut | GlobalName::Unknown => Ok(()),
    }
}

/// The name of a host.
fn push_host(
    var: Var,
    name: &[u8],
    hosts: &HostNames,
    functions: &[ObjId],
    bindings: &mut Items<Binding<Nothing>>,
) -> Result<(), AllocError>
    ensures { OnOk result (bindings.new ≡ bindings.old ++ host_binding var name.now hosts.now functions.now) }
{
    for (at, function) in functions.iter().enumerate() {
        let Some(host) = hosts.name(at) else {
            return Ok(());
        };
        if name == host.as_bytes() {
            return bindings.push(user_binding(var, Value::Object(*function), true));
        }
    }
    Ok(())
}

fn push_bound(
    var: Var,
    name: &Option<Name>,
    hosts: &HostNames,
    functions: &[ObjId],
    bindings: &mut Items<Binding<Nothing>>,
) -> Result<(), AllocError>
    requires { functions.now ≡ host_functions (length hosts.now) }
    ensures { OnOk result (bindings.new ≡ bindings.old ++ bound_at_start hosts.now var name.now) }
{
    match name {
        None => Ok(()),
        Some(name) => {
            push_global(var, global_of(name.bytes()), bindings)?;
            push_host(var, name.bytes(), hosts, functions, bindings)
        }
    }
}

/// The number of a variable, which has 32 bits.
fn number(at: usize) -> Result<u32, AllocError>
    ensures { IfOk result (λ number. number ≡ at) }
{
    match u32::try_from(at) {
        Ok(number) => Ok(number),
        Err(_) => Err(AllocError),
    }
}

/// The record of the library and the hosts, for a script with these names.
pub(crate) fn global_record(
    alloc: Global,
    names: &[Option<Name>],
    hosts: &HostNames,
    functions: &[ObjId],
) -> Result<Items<Binding<Nothing>>, AllocError>
    requires { functions.now ≡ host_functions (length hosts.now) }
    ensures { IfOk result (λ bindings. bindings ≡ global_record hosts.now 0 names.now) }
{
    let mut made = Items::new(alloc);
    for (at, name) in names.iter().enumerate() {
        push_bound(Var(number(at)?), name, hosts, functions, &mut made)?;
    }
    Ok(made)
}

fn push_own(names: &[ScopedName], bindings: &mut Items<Binding<Nothing>>) -> Result<(), AllocError>
    ensures { OnOk result (bindings.new ≡ bindings.old ++ map (λ n. user_binding n.var Value.Undefined n.mutable) names.now) }
{
    for name in names {
        bindings.push(user_binding(name.var, Value::Undefined, name.mutable))?;
    }
    Ok(())
}

/// The record of the names that the script declares.
pub(crate) fn own_record(
    alloc: Global,
    parts: &[CorePart],
) -> Result<Items<Binding<Nothing>>, AllocError>
    ensures { IfOk result (λ bindings. bindings ≡ flat_map own_record parts.now) }
{
    let mut made = Items::new(alloc);
    for part in parts {
        push_own(part.names.as_slice(), &mut made)?;
    }
    Ok(made)
}
