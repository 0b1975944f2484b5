//! The bindings of imports (ECMA-262, 6th edition, 15.2.1.16.4, step 12): a name has the binding where it ends, and a namespace is the
//! other module's.

ghost use Rattle.std.specs.Prelude.{◌≡◌, ◌++◌, IfOk, None, OnOk};
ghost use Rattle.es6_static_semantics.specs.Endings.{requested};
ghost use Rattle.es6_static_semantics.specs.Findings.{joined};
ghost use Rattle.source_meaning.specs.Modules.{ended_bindings, exported_names, held_at_end, home_in, imported_binding, listed_names, namespace_bindings, optional_names, wanted_names};
ghost use Rattle.source_modules.specs.Bindings.{end_bindings, import_bindings, local_names, space_bindings};
ghost use Rattle.source_modules.specs.Ones.{IsOnly};

use es6_ast::{EndOf, ExportName, Identifier, ImportName, ImportedNames, Item, Request, Specifier};
use source_state::{Binding, BorrowedName, Held};
use sqlite_items::Items;
use std::alloc::{AllocError, Global};

/// The name under which a module's record has its namespace object.
pub(crate) const NAMESPACE: &[u8] = b"*namespace*";

fn name_of<'a>(name: &'a Identifier) -> BorrowedName<'a>
    ensures { result ≡ name.now.name }
{
    BorrowedName::of(name.name.bytes())
}

fn held_at_end<'a>(end: &'a EndOf) -> Held<'a>
    ensures { result ≡ held_at_end end.now }
{
    match end {
        EndOf::Local { module, name } => Held::Imported(*module, BorrowedName::of(name.bytes())),
        EndOf::Host { index } => Held::OfHost(*index),
    }
}

pub(crate) fn imported_binding<'a>(name: BorrowedName<'a>, held: Held<'a>) -> Binding<'a>
    ensures { result ≡ imported_binding name.entry held.entry }
{
    Binding {
        name,
        mutable: false,
        held,
    }
}

/// Adds the name of a default import.
fn add_optional<'a>(
    name: &'a Option<Identifier>,
    names: &mut Items<Option<BorrowedName<'a>>>,
) -> Result<(), AllocError>
    ensures { OnOk result (names.new ≡ names.old ++ optional_names name.now) }
{
    match name {
        None => Ok(()),
        Some(name) => names.push(Some(name_of(name))),
    }
}

/// Adds the names by which these are known here.
fn add_locals<'a>(
    list: &'a [ImportName],
    names: &mut Items<Option<BorrowedName<'a>>>,
) -> Result<(), AllocError>
    ensures { OnOk result (names.new ≡ names.old ++ local_names list.now) }
{
    for one in list {
        names.push(Some(name_of(&one.local)))?;
    }
    Ok(())
}

/// Adds the names that are imported in braces.
fn add_listed<'a>(
    listed: &'a ImportedNames,
    names: &mut Items<Option<BorrowedName<'a>>>,
) -> Result<(), AllocError>
    ensures { OnOk result (names.new ≡ names.old ++ listed_names listed.now) }
{
    match listed {
        ImportedNames::Listed(list) => add_locals(list.as_slice(), names),
        _ => Ok(()),
    }
}

/// A name that is exported from elsewhere isn't bound here.
fn no_name<'a>(_name: &ExportName) -> Option<BorrowedName<'a>>
    ensures { result ≡ None }
{
    None
}

/// Adds that no name is bound for each name of an `export { .. } from`.
fn add_exported<'a>(
    from: &Option<Specifier>,
    list: &[ExportName],
    names: &mut Items<Option<BorrowedName<'a>>>,
) -> Result<(), AllocError>
    ensures { OnOk result (names.new ≡ names.old ++ exported_names from.now list.now) }
{
    if from.is_some() {
        for one in list {
            names.push(no_name(one))?;
        }
    }
    Ok(())
}

/// Adds the names that an item wants of other modules.
fn add_wanted<'a>(
    item: &'a Item,
    names: &mut Items<Option<BorrowedName<'a>>>,
) -> Result<(), AllocError>
    ensures { OnOk result (names.new ≡ names.old ++ wanted_names item.now) }
{
    match item {
        Item::Import {
            default,
            names: listed,
            ..
        } => {
            add_optional(default, names)?;
            add_listed(listed, names)
        }
        Item::ExportNames {
            names: list,
            from,
            ..
        } => add_exported(from, list.as_slice(), names),
        _ => Ok(()),
    }
}

/// The names that are wanted of other modules, in text order, with None where no name is bound.
fn wanted_names<'a>(
    alloc: Global,
    items: &'a [Item],
) -> Result<Items<Option<BorrowedName<'a>>>, AllocError>
    ensures { IfOk result (λ names. names ≡ joined wanted_names items.now) }
{
    let mut names = Items::new(alloc);
    for item in items {
        add_wanted(item, &mut names)?;
    }
    Ok(names)
}

/// Adds the binding of a name that ends here, if one is bound.
fn add_end<'a>(
    name: &Option<BorrowedName<'a>>,
    end: &'a EndOf,
    bindings: &mut Items<Binding<'a>>,
) -> Result<(), AllocError>
    ensures { OnOk result (bindings.new ≡ bindings.old ++ end_bindings name.now end.now) }
{
    match name {
        None => Ok(()),
        Some(name) => bindings.push(imported_binding(name.share(), held_at_end(end))),
    }
}

/// Adds the bindings of these names, each by where it ends.
#[tactic(auto, using(crate::proofs::Endings::ended_none, crate::proofs::Endings::ended_first))]
fn add_ended<'a>(
    names: &[Option<BorrowedName<'a>>],
    endings: &'a [EndOf],
    bindings: &mut Items<Binding<'a>>,
) -> Result<(), AllocError>
    ensures { OnOk result (bindings.new ≡ bindings.old ++ ended_bindings names.now endings.now) }
{
    let mut ends = endings;
    for name in names {
        match ends.split_first() {
            None => return Ok(()),
            Some((end, rest)) => {
                add_end(name, end, bindings)?;
                ends = rest;
            }
        }
    }
    Ok(())
}

/// The bindings of the names that are imported, but of namespaces.
pub(crate) fn ended_bindings<'a>(
    alloc: Global,
    items: &'a [Item],
    endings: &'a [EndOf],
) -> Result<Items<Binding<'a>>, AllocError>
    ensures { IfOk result (λ bindings. bindings ≡ import_bindings items.now endings.now) }
{
    let names = wanted_names(alloc, items)?;
    let mut bindings = Items::new(alloc);
    add_ended(names.as_slice(), endings, &mut bindings)?;
    Ok(bindings)
}

/// What a specifier names, if it is requested.
fn requested(requests: &[Request], from: &[u16]) -> Option<Option<u32>>
    ensures { result ≡ requested requests.now from.now }
{
    for request in requests {
        if request.specifier.units() == from {
            return Some(request.module);
        }
    }
    None
}

/// The module that a specifier names, if it names one.
pub(crate) fn home_of(requests: &[Request], from: &Specifier) -> Option<u32>
    ensures { IsOnly result (home_in (requested requests.now from.now.text)) }
{
    match requested(requests, from.text.units()) {
        Some(Some(home)) => Some(home),
        _ => None,
    }
}

/// Adds the binding of a namespace.
fn add_space<'a>(
    requests: &[Request],
    name: &'a Identifier,
    from: &Specifier,
    bindings: &mut Items<Binding<'a>>,
) -> Result<(), AllocError>
    ensures { OnOk result (bindings.new ≡ bindings.old ++ space_bindings requests.now name.now from.now) }
{
    match home_of(requests, from) {
        None => Ok(()),
        Some(home) => {
            let held = Held::Imported(home, BorrowedName::of(NAMESPACE));
            bindings.push(imported_binding(name_of(name), held))
        }
    }
}

/// Adds the binding of the namespace that an item imports, if it imports one.
pub(crate) fn add_namespace<'a>(
    requests: &[Request],
    item: &'a Item,
    bindings: &mut Items<Binding<'a>>,
) -> Result<(), AllocError>
    ensures { OnOk result (bindings.new ≡ bindings.old ++ namespace_bindings requests.now item.now) }
{
    match item {
        Item::Import {
            names: ImportedNames::Namespace(name),
            from,
            ..
        } => add_space(requests, name, from, bindings),
        _ => Ok(()),
    }
}
