//! The requests of a module before it is known which modules they name.

ghost use Rattle.std.specs.Prelude.{◌≡◌, ◌∷◌, ◌++◌, [], map, IfOk, OnOk};
ghost use Rattle.es6_static_semantics.specs.Findings.{joined};
ghost use Rattle.es6_static_semantics.specs.Graphs.{from_of, specifiers};
ghost use Rattle.module_requests.specs.Requests.{open_request, requests_in};

use es6_ast::{Item, Module, Request, Specifier};
use sqlite_items::Items;
use std::alloc::{AllocError, Global};

/// The requests of a module, one for each specifier in text order, none of which names a module yet.
pub fn requests_of(alloc: Global, tree: &Module) -> Result<Items<Request>, AllocError>
    ensures { IfOk result (λ requests. requests ≡ map open_request (specifiers tree.now)) }
{
    let mut all = Items::new(alloc);
    add_requests(&mut all, alloc, tree.items.as_slice())?;
    Ok(all)
}

fn add_requests(all: &mut Items<Request>, alloc: Global, items: &[Item]) -> Result<(), AllocError>
    ensures { OnOk result (all.new ≡ all.old ++ joined requests_in items.now) }
{
    for item in items {
        add_item(all, alloc, item)?;
    }
    Ok(())
}

fn add_item(all: &mut Items<Request>, alloc: Global, item: &Item) -> Result<(), AllocError>
    ensures { OnOk result (all.new ≡ all.old ++ requests_in item.now) }
{
    match item {
        Item::Import { from, .. } | Item::ExportAll { from, .. } => add_from(all, alloc, from),
        Item::ExportNames { from, .. } => add_optional(all, alloc, from),
        Item::ExportDeclaration { .. } | Item::ExportDefault { .. } | Item::Statement(_) => Ok(()),
    }
}

fn add_optional(
    all: &mut Items<Request>,
    alloc: Global,
    from: &Option<Specifier>,
) -> Result<(), AllocError>
    ensures { OnOk result (all.new ≡ all.old ++ map open_request (from_of from.now)) }
{
    match from {
        None => Ok(()),
        Some(from) => add_from(all, alloc, from),
    }
}

fn add_from(all: &mut Items<Request>, alloc: Global, from: &Specifier) -> Result<(), AllocError>
    ensures { OnOk result (all.new ≡ all.old ++ open_request from.now ∷ []) }
{
    all.push(Request {
        at: from.span.begin,
        specifier: from.text.copy(alloc)?,
        module: None,
    })
}
