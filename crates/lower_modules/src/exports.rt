//! Namespace objects (ECMA-262, 6th edition, 9.4.6 and 15.2.1.18).

ghost use Rattle.std.specs.Prelude.{◌≡◌, IfOk, Some};
ghost use Rattle.lower_modules.specs.Exports.{exported_as};
ghost use Rattle.lower_walk.specs.Handed.{done_at};
ghost use Rattle.module_lowering.specs.Bindings.{meaning, own_var};
ghost use Rattle.module_lowering.specs.Lowering.{define, each_by, Lowers};
ghost use Rattle.module_lowering.specs.Modules.{exported, exported_by, exported_own, exported_value, namespace_objects};
ghost use Rattle.lowering_rules.specs.reference_rules.References.{found, value_of};
ghost use Rattle.lowering_rules.specs.statement_rules.Bodies.{export_getter};

use core_ast::{CoreFunction, FunctionId, Var};
use lower_bodies::export_getter;
use lower_references::{lower_found, value_of};
use lower_walk::Around;
use lower_walk::lower_names::{Bindings, can_be_unready, imported_value, units_of};
use lowering_rules::reference_rules::NamedValue;
use lowering_rules::statement_rules::{Export, Namespace};
use module_lowering::{Entry, Lowerer, Meaning};
use scope_analysis::BindingId;
use scope_rules::Kind;
use sqlite_items::Items;
use std::alloc::{AllocError, Global};

/// What a binding of a module stands for, which is of this kind, in a namespace object.
fn exported_by(var: Var, kind: Kind, meaning: Meaning) -> NamedValue
    ensures { result ≡ exported_as var kind meaning }
{
    match meaning {
        Meaning::Itself => imported_value(var, can_be_unready(kind, false)),
        Meaning::Elsewhere(end) => imported_value(end, true),
        Meaning::NamespaceOf(object) => imported_value(object, false),
        Meaning::OfHost(host) => NamedValue::HostName(host),
    }
}

fn exported_number(
    bindings: &Bindings,
    home: usize,
    number: usize,
) -> Result<NamedValue, AllocError>
    ensures { IfOk result (λ v. v ≡ exported_own bindings.now home (Some number)) }
{
    let Some(binding) = bindings.own(BindingId::Own { home, number }) else {
        return Ok(NamedValue::UndefinedName);
    };
    let var = bindings.own_var(home, number)?;
    Ok(exported_by(var, binding.kind, bindings.meaning(var)))
}

fn exported_value(around: Around, entry: &Entry) -> Result<NamedValue, AllocError>
    ensures { IfOk result (λ v. v ≡ exported_value entry.now around.entry.bindings.now around.entry.context.now) }
{
    let home = entry.home as usize;
    match around.bindings.number_of(home, entry.local.bytes()) {
        None => Ok(NamedValue::UndefinedName),
        Some(number) => exported_number(around.bindings, home, number),
    }
}

/// The function that reads a value.
fn getter_of(alloc: Global, value: NamedValue) -> Result<CoreFunction, AllocError>
    ensures { IfOk result (λ f. f ≡ export_getter (value_of (found value))) }
{
    let value = value_of(alloc, lower_found(alloc, value))?;
    export_getter(alloc, value)
}

/// The function goes into the table.
fn define(
    around: Around,
    function: CoreFunction,
    state: &mut Lowerer,
) -> Result<FunctionId, AllocError>
    ensures { Lowers (done_at around.entry (define function) state.old) result state.new }
{
    let Ok(place) = u32::try_from(state.functions.len()) else {
        return Err(AllocError);
    };
    state.functions.push(function)?;
    Ok(FunctionId(place))
}

fn exported(around: Around, entry: &Entry, state: &mut Lowerer) -> Result<Export, AllocError>
    ensures { Lowers (done_at around.entry (exported entry.now) state.old) result state.new }
{
    let value = exported_value(around, entry)?;
    let getter = define(around, getter_of(around.alloc, value)?, state)?;
    let name = units_of(around.alloc, entry.name.bytes())?;
    Ok(Export { name, getter })
}

fn all_exported(
    around: Around,
    entries: &[Entry],
    state: &mut Lowerer,
) -> Result<Items<Export>, AllocError>
    ensures { Lowers (done_at around.entry (each_by exported entries.now) state.old) result state.new }
{
    let mut made = Items::new(around.alloc);
    for entry in entries {
        made.push(exported(around, entry, state)?)?;
    }
    Ok(made)
}

/// The namespace object of a module, if it is wanted.
pub(crate) fn namespace_objects(
    around: Around,
    is_wanted: bool,
    var: Var,
    entries: &[Entry],
    state: &mut Lowerer,
) -> Result<Items<Namespace>, AllocError>
    ensures { Lowers (done_at around.entry (namespace_objects is_wanted var entries.now) state.old) result state.new }
{
    let mut objects = Items::new(around.alloc);
    if is_wanted {
        let exports = all_exported(around, entries, state)?;
        objects.push(Namespace { var, exports })?;
    }
    Ok(objects)
}
