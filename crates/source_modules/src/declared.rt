//! The bindings of the names that a module declares (ECMA-262, 6th edition, 15.2.1.16.4, steps 14 to 16): a function at its top level is a
//! lexical name.

ghost use Rattle.std.specs.Prelude.{◌≡◌, ◌++◌, OnOk, map, true};
ghost use Rattle.es6_static_semantics.specs.Findings.{joined};
ghost use Rattle.source_meaning.specs.Environments.{unbound};
ghost use Rattle.source_meaning.specs.Functions.{undefined_binding};
ghost use Rattle.source_meaning.specs.Modules.{declared_bindings, item_statements};
ghost use Rattle.source_meaning.specs.Trees.{lexical, variables_in};
ghost use Rattle.source_modules.specs.Bindings.{default_bindings, function_bindings, lexical_bindings, variable_bindings};

use crate::items::{default_name, function_name, item_statement, statement_function};
use es_value::Value;
use es6_ast::Item;
use source_state::{Binding, BorrowedName, Held};
use source_trees::{add_lexicals, add_variables};
use sqlite_items::Items;
use std::alloc::{AllocError, Global};

fn undefined_binding<'a>(name: BorrowedName<'a>) -> Binding<'a>
    ensures { result ≡ undefined_binding name.entry }
{
    Binding {
        name,
        mutable: true,
        held: Held::Holds(Value::Undefined),
    }
}

/// A name that can be written, and isn't initialized.
fn unbound<'a>(name: BorrowedName<'a>) -> Binding<'a>
    ensures { result ≡ unbound (lexical true name.entry) }
{
    Binding {
        name,
        mutable: true,
        held: Held::Uninitialized,
    }
}

fn add_undefined<'a>(
    names: &[BorrowedName<'a>],
    bindings: &mut Items<Binding<'a>>,
) -> Result<(), AllocError>
    ensures { OnOk result (bindings.new ≡ bindings.old ++ map undefined_binding names.now) }
{
    for name in names {
        bindings.push(undefined_binding(name.share()))?;
    }
    Ok(())
}

/// Adds the variables of an item.
fn add_item_variables<'a>(
    alloc: Global,
    item: &'a Item,
    names: &mut Items<BorrowedName<'a>>,
) -> Result<(), AllocError>
    ensures { OnOk result (names.new ≡ names.old ++ variables_in (item_statements item.now)) }
{
    match item_statement(item) {
        None => Ok(()),
        Some(statement) => add_variables(alloc, names, statement),
    }
}

/// Adds the variables of a module.
#[tactic(auto, using(crate::proofs::Joins::joined_over))]
fn add_variables_of<'a>(
    alloc: Global,
    items: &'a [Item],
    bindings: &mut Items<Binding<'a>>,
) -> Result<(), AllocError>
    ensures { OnOk result (bindings.new ≡ bindings.old ++ variable_bindings items.now) }
{
    let mut names = Items::new(alloc);
    for item in items {
        add_item_variables(alloc, item, &mut names)?;
    }
    add_undefined(names.as_slice(), bindings)
}

/// Adds the lexical names of an item, but functions and a default.
fn add_item_lexicals<'a>(
    alloc: Global,
    item: &'a Item,
    bindings: &mut Items<Binding<'a>>,
) -> Result<(), AllocError>
    ensures { OnOk result (bindings.new ≡ bindings.old ++ lexical_bindings (item_statements item.now)) }
{
    match item_statement(item) {
        None => Ok(()),
        Some(statement) => add_lexicals(alloc, bindings, statement),
    }
}

#[tactic(auto, using(crate::proofs::Joins::joined_over))]
fn add_lexicals_of<'a>(
    alloc: Global,
    items: &'a [Item],
    bindings: &mut Items<Binding<'a>>,
) -> Result<(), AllocError>
    ensures { OnOk result (bindings.new ≡ bindings.old ++ lexical_bindings (joined item_statements items.now)) }
{
    for item in items {
        add_item_lexicals(alloc, item, bindings)?;
    }
    Ok(())
}

/// Adds the names of default exports.
fn add_default_names<'a>(
    items: &'a [Item],
    bindings: &mut Items<Binding<'a>>,
) -> Result<(), AllocError>
    ensures { OnOk result (bindings.new ≡ bindings.old ++ default_bindings items.now) }
{
    for item in items {
        if let Some(name) = default_name(item) {
            bindings.push(unbound(name))?;
        }
    }
    Ok(())
}

/// Adds the names of functions.
fn add_function_names<'a>(
    items: &'a [Item],
    bindings: &mut Items<Binding<'a>>,
) -> Result<(), AllocError>
    ensures { OnOk result (bindings.new ≡ bindings.old ++ function_bindings items.now) }
{
    for item in items {
        if let Some(function) = statement_function(item) {
            bindings.push(unbound(function_name(function)))?;
        }
    }
    Ok(())
}

/// Adds the bindings of what a module declares.
pub(crate) fn add_declared<'a>(
    alloc: Global,
    items: &'a [Item],
    bindings: &mut Items<Binding<'a>>,
) -> Result<(), AllocError>
    ensures { OnOk result (bindings.new ≡ bindings.old ++ declared_bindings items.now) }
{
    add_variables_of(alloc, items, bindings)?;
    add_lexicals_of(alloc, items, bindings)?;
    add_default_names(items, bindings)?;
    add_function_names(items, bindings)
}
