//! What the items of a module declare (ECMA-262, 6th edition, 15.2.1.11 to 15.2.1.13).

ghost use Rattle.std.specs.Prelude.{◌≡◌, ◌++◌, map, IfOk, OnOk};
ghost use Rattle.lower_listed.specs.Hoisted.{hoisted_of};
ghost use Rattle.lower_modules.specs.Items.{functions_listed, lexicals_listed, variables_listed};
ghost use Rattle.module_lowering.specs.Modules.{default_function, default_listed, item_listed, place_or};
ghost use Rattle.module_lowering.specs.Lowered.{function_lowered};

use es6_ast::{DefaultExport, Function, Identifier, Item};
use lower_listed::{HoistedAt, NamedAt, push_functions, push_lexicals, push_variables};
use sqlite_items::Items;
use std::alloc::{AllocError, Global};

/// Where a name stands, or the place of `default` where there is none (15.2.3.2).
pub(crate) fn place_or(at: u32, name: &Option<Identifier>) -> u32
    ensures { result ≡ place_or at name.now }
{
    match name {
        None => at,
        Some(name) => name.span.begin,
    }
}

#[tactic(auto, using(crate::proofs::Defaults::no_variables))]
fn push_item_variables<'a>(item: &'a Item, out: &mut Items<NamedAt<'a>>) -> Result<(), AllocError>
    ensures { OnOk result (out.new ≡ out.old ++ (item_listed item.now).variables) }
{
    match item {
        Item::ExportDeclaration { declaration, .. } => push_variables(declaration, out),
        Item::Statement(statement) => push_variables(statement, out),
        _ => Ok(()),
    }
}

/// The names that `var` declares.
pub(crate) fn item_variables<'a>(
    alloc: Global,
    items: &'a [Item],
) -> Result<Items<NamedAt<'a>>, AllocError>
    ensures { IfOk result (λ xs. xs ≡ variables_listed items.now) }
{
    let mut out = Items::new(alloc);
    for item in items {
        push_item_variables(item, &mut out)?;
    }
    Ok(out)
}

#[tactic(auto, using(lower_walk::proofs::Layers::class_out))]
fn push_default_lexicals(
    at: u32,
    value: &DefaultExport,
    out: &mut Items<u32>,
) -> Result<(), AllocError>
    ensures { OnOk result (out.new ≡ out.old ++ (default_listed at value.now).lexicals) }
{
    match value {
        DefaultExport::DefaultFunction(_) => Ok(()),
        DefaultExport::DefaultClass(class) => out.push(place_or(at, &class.get().name)),
        DefaultExport::DefaultValue(_) => out.push(at),
    }
}

fn push_item_lexicals(item: &Item, out: &mut Items<u32>) -> Result<(), AllocError>
    ensures { OnOk result (out.new ≡ out.old ++ (item_listed item.now).lexicals) }
{
    match item {
        Item::ExportDeclaration { declaration, .. } => push_lexicals(declaration, out),
        Item::ExportDefault { word, value, .. } => push_default_lexicals(word.begin, value, out),
        Item::Statement(statement) => push_lexicals(statement, out),
        _ => Ok(()),
    }
}

/// The places of the lexical names, but those of functions.
pub(crate) fn item_lexicals(alloc: Global, items: &[Item]) -> Result<Items<u32>, AllocError>
    ensures { IfOk result (λ xs. xs ≡ lexicals_listed items.now) }
{
    let mut out = Items::new(alloc);
    for item in items {
        push_item_lexicals(item, &mut out)?;
    }
    Ok(out)
}

/// The function of `export default`.
fn push_default_function<'a>(
    at: u32,
    function: &'a Function,
    out: &mut Items<HoistedAt<'a>>,
) -> Result<(), AllocError>
    ensures { OnOk result (map hoisted_of out.new ≡ map hoisted_of out.old ++ (default_function at (function_lowered function.now)).functions) }
{
    let at = place_or(at, &function.name);
    out.push(HoistedAt { at, function })?;
    Ok(())
}

fn push_default_functions<'a>(
    at: u32,
    value: &'a DefaultExport,
    out: &mut Items<HoistedAt<'a>>,
) -> Result<(), AllocError>
    ensures { OnOk result (map hoisted_of out.new ≡ map hoisted_of out.old ++ (default_listed at value.now).functions) }
{
    match value {
        DefaultExport::DefaultFunction(function) => {
            push_default_function(at, function.get(), out)
        }
        DefaultExport::DefaultClass(_) | DefaultExport::DefaultValue(_) => Ok(()),
    }
}

fn push_item_functions<'a>(item: &'a Item, out: &mut Items<HoistedAt<'a>>) -> Result<(), AllocError>
    ensures { OnOk result (map hoisted_of out.new ≡ map hoisted_of out.old ++ (item_listed item.now).functions) }
{
    match item {
        Item::ExportDeclaration { declaration, .. } => push_functions(declaration, out),
        Item::ExportDefault { word, value, .. } => push_default_functions(word.begin, value, out),
        Item::Statement(statement) => push_functions(statement, out),
        _ => Ok(()),
    }
}

/// The functions.
pub(crate) fn item_functions<'a>(
    alloc: Global,
    items: &'a [Item],
) -> Result<Items<HoistedAt<'a>>, AllocError>
    ensures { IfOk result (λ xs. map hoisted_of xs ≡ functions_listed items.now) }
{
    let mut out = Items::new(alloc);
    for item in items {
        push_item_functions(item, &mut out)?;
    }
    Ok(out)
}
