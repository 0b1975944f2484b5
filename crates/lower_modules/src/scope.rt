//! What a module declares (ECMA-262, 6th edition, 15.2.1.16.4).

ghost use Rattle.std.specs.Prelude.{◌≡◌, ◌++◌, map, IfOk, OnOk};
ghost use Rattle.std.specs.List.{filter};
ghost use Rattle.lower_modules.specs.Parts.{declared_in, listed_of, namespace_names, scope_made, scope_names, scope_values};
ghost use Rattle.lower_walk.specs.Handed.{done_at, HasFunctions};
ghost use Rattle.module_lowering.specs.Bindings.{declares_first};
ghost use Rattle.module_lowering.specs.Lowering.{Lowers};
ghost use Rattle.module_lowering.specs.Modules.{module_names, own_places};
ghost use Rattle.module_lowering.specs.Names.{places};

use crate::exports::namespace_objects;
use crate::listed::{item_functions, item_lexicals, item_variables};
use core_ast::{Declared, FunctionId, ScopedName, Var};
use es6_ast::{Function, Item};
use lower_listed::{HoistedAt, NamedAt, lower_hoisted, name_places, scope_places};
use lower_walk::{Around, Here};
use lowering_rules::statement_rules::{ModuleScope, Namespace};
use module_lowering::{Entry, FunctionForm, Lowerer};
use sqlite_items::Items;
use std::alloc::{AllocError, Global};

/// What the items of a module declare, without their statements.
#[derive(Drop)]
pub(crate) struct Declarations<'a> {
    variables: Items<NamedAt<'a>>,
    lexicals: Items<u32>,
    functions: Items<HoistedAt<'a>>,
}

pub(crate) fn declarations_of<'a>(
    alloc: Global,
    items: &'a [Item],
) -> Result<Declarations<'a>, AllocError>
    ensures { IfOk result (λ d. listed_of d ≡ declared_in items.now) }
{
    Ok(Declarations {
        variables: item_variables(alloc, items)?,
        lexicals: item_lexicals(alloc, items)?,
        functions: item_functions(alloc, items)?,
    })
}

/// Those places at which names are declared first.
fn first_places(around: Around, places: &[u32]) -> Result<Items<u32>, AllocError>
    ensures { IfOk result (λ xs. xs ≡ filter (declares_first around.entry.bindings.now around.entry.context.now) places.now) }
{
    let mut out = Items::new(around.alloc);
    for place in places {
        if !around.bindings.declares_first(around.context, *place) {
            continue;
        }
        out.push(*place)?;
    }
    Ok(out)
}

fn variable_places(around: Around, variables: &[NamedAt]) -> Result<Items<u32>, AllocError>
    ensures { IfOk result (λ xs. xs ≡ filter (declares_first around.entry.bindings.now around.entry.context.now) (places variables.now)) }
{
    let places = name_places(around.alloc, variables)?;
    first_places(around, places.as_slice())
}

fn own_places(around: Around, declared: &Declarations) -> Result<Items<u32>, AllocError>
    ensures { IfOk result (λ xs. xs ≡ own_places (listed_of declared.now) around.entry.bindings.now around.entry.context.now) }
{
    let lexicals = declared.lexicals.as_slice();
    let functions = declared.functions.as_slice();
    let mut out = variable_places(around, declared.variables.as_slice())?;
    out.append(scope_places(around.alloc, lexicals, functions)?)?;
    Ok(out)
}

fn module_names(around: Around, declared: &Declarations) -> Result<Items<ScopedName>, AllocError>
    ensures { IfOk result (λ ns. ns ≡ module_names (listed_of declared.now) around.entry.bindings.now around.entry.context.now) }
{
    let places = own_places(around, declared)?;
    around
        .bindings
        .scoped_names(around.alloc, around.context, places.as_slice())
}

/// All names of a module but those of namespace objects, and those that are lexical.
#[derive(Drop)]
pub(crate) struct ScopeNames {
    pub(crate) names: Items<ScopedName>,
    pub(crate) lexical: Items<ScopedName>,
}

fn scope_names(around: Around, declared: &Declarations) -> Result<ScopeNames, AllocError>
    ensures { IfOk result (λ ns. ns ≡ scope_names (listed_of declared.now) around.entry.bindings.now around.entry.context.now) }
{
    let names = module_names(around, declared)?;
    let places = declared.lexicals.as_slice();
    let lexical = around
        .bindings
        .scoped_names(around.alloc, around.context, places)?;
    Ok(ScopeNames { names, lexical })
}

/// The functions and the namespace object of a module.
#[derive(Drop)]
pub(crate) struct ScopeValues {
    pub(crate) functions: Items<Declared>,
    pub(crate) namespaces: Items<Namespace>,
}

/// The namespace object of a module: whether it is wanted, its variable, and its names.
#[derive(Clone, Copy)]
pub(crate) struct Exporting<'a> {
    pub(crate) is_wanted: bool,
    pub(crate) var: Var,
    pub(crate) entries: &'a [Entry],
}

fn scope_values<
    E,
    P,
    S,
    F: Fn(Around, &Function, FunctionForm, &mut Lowerer) -> Result<FunctionId, AllocError>,
>(
    here: &Here<'_, E, P, S, F>,
    exporting: Exporting,
    declared: &Declarations,
    state: &mut Lowerer,
) -> Result<ScopeValues, AllocError>
    requires functions { HasFunctions F.pre F.post here.now }
    ensures { Lowers (done_at here.now.around (scope_values exporting.entry.is_wanted exporting.entry.var exporting.entry.entries.now (listed_of declared.now)) state.old) result state.new }
{
    let Exporting {
        is_wanted,
        var,
        entries,
    } = exporting;
    let functions = lower_hoisted(here, declared.functions.as_slice(), state)?;
    let namespaces = namespace_objects(here.around, is_wanted, var, entries, state)?;
    Ok(ScopeValues {
        functions,
        namespaces,
    })
}

/// The names of namespace objects.
fn push_namespace_names(
    namespaces: &[Namespace],
    names: &mut Items<ScopedName>,
) -> Result<(), AllocError>
    ensures { OnOk result (names.new ≡ names.old ++ namespace_names namespaces.now) }
{
    for one in namespaces {
        names.push(ScopedName {
            var: one.var,
            shared: false,
            mutable: true,
        })?;
    }
    Ok(())
}

/// The scope of a module.
pub(crate) fn module_scope<
    E,
    P,
    S,
    F: Fn(Around, &Function, FunctionForm, &mut Lowerer) -> Result<FunctionId, AllocError>,
>(
    here: &Here<'_, E, P, S, F>,
    exporting: Exporting,
    declared: &Declarations,
    state: &mut Lowerer,
) -> Result<ModuleScope, AllocError>
    requires functions { HasFunctions F.pre F.post here.now }
    ensures { Lowers (done_at here.now.around (scope_made exporting.entry.is_wanted exporting.entry.var exporting.entry.entries.now (listed_of declared.now)) state.old) result state.new }
{
    let ScopeNames { names, lexical } = scope_names(here.around, declared)?;
    let ScopeValues {
        functions,
        namespaces,
    } = scope_values(here, exporting, declared, state)?;
    let mut names = names;
    push_namespace_names(namespaces.as_slice(), &mut names)?;
    Ok(ModuleScope {
        names,
        lexical,
        functions,
        namespaces,
    })
}
