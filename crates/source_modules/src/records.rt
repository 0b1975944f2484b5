//! The records of modules (ECMA-262, 6th edition, 8.1.1.5, 15.2.1.16.4).

ghost use Rattle.std.specs.Prelude.{◌≡◌, ◌++◌, IfOk, OnOk};
ghost use Rattle.es6_static_semantics.specs.Findings.{joined};
ghost use Rattle.source_meaning.specs.Modules.{imported_binding, module_bindings, namespace_bindings, namespace_name};
ghost use Rattle.source_meaning.specs.State.{Uninitialized};
ghost use Rattle.source_modules.specs.Bindings.{outer_bindings, own_bindings};
ghost use Rattle.source_modules.specs.Instances.{record_made};

use crate::declared::add_declared;
use crate::imports::{NAMESPACE, add_namespace, ended_bindings, imported_binding};
use es_value::Value;
use es6_ast::{Item, LoadedModule, Request};
use source_state::{Binding, BorrowedName, EnvironmentRecord, Held};
use sqlite_items::Items;
use std::alloc::{AllocError, Global};

/// Adds the bindings of the namespaces that are imported.
fn add_namespaces<'a>(
    requests: &[Request],
    items: &'a [Item],
    bindings: &mut Items<Binding<'a>>,
) -> Result<(), AllocError>
    ensures { OnOk result (bindings.new ≡ bindings.old ++ joined (namespace_bindings requests.now) items.now) }
{
    for item in items {
        add_namespace(requests, item, bindings)?;
    }
    Ok(())
}

/// The bindings of what a module imports.
fn outer_bindings<'a>(
    alloc: Global,
    loaded: &'a LoadedModule,
) -> Result<Items<Binding<'a>>, AllocError>
    ensures { IfOk result (λ bindings. bindings ≡ outer_bindings loaded.now) }
{
    let items = loaded.tree.items.as_slice();
    let mut bindings = ended_bindings(alloc, items, loaded.endings.as_slice())?;
    add_namespaces(loaded.requests.as_slice(), items, &mut bindings)?;
    Ok(bindings)
}

/// The binding of a module's namespace object, before there is one.
fn namespace_binding<'a>() -> Binding<'a>
    ensures { result ≡ imported_binding namespace_name Uninitialized }
{
    imported_binding(BorrowedName::of(NAMESPACE), Held::Uninitialized)
}

/// Adds the bindings of what a module has of its own.
fn add_own<'a>(
    alloc: Global,
    items: &'a [Item],
    bindings: &mut Items<Binding<'a>>,
) -> Result<(), AllocError>
    ensures { OnOk result (bindings.new ≡ bindings.old ++ own_bindings items.now) }
{
    add_declared(alloc, items, bindings)?;
    bindings.push(namespace_binding())
}

fn module_bindings<'a>(
    alloc: Global,
    loaded: &'a LoadedModule,
) -> Result<Items<Binding<'a>>, AllocError>
    ensures { IfOk result (λ bindings. bindings ≡ module_bindings loaded.now) }
{
    let mut bindings = outer_bindings(alloc, loaded)?;
    add_own(alloc, loaded.tree.items.as_slice(), &mut bindings)?;
    Ok(bindings)
}

/// The record of a module, whose `this` is undefined (8.1.1.5.4).
#[tactic(auto, unfolding(crate::specs::Instances::record_made))]
pub(crate) fn module_record<'a>(
    alloc: Global,
    loaded: &'a LoadedModule,
) -> Result<EnvironmentRecord<'a>, AllocError>
    ensures { IfOk result (λ made. made ≡ record_made loaded.now) }
{
    let bindings = module_bindings(alloc, loaded)?;
    Ok(EnvironmentRecord {
        bindings,
        this: Some(Value::Undefined),
    })
}
