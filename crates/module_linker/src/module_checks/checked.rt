//! The checks of a module's tree.

ghost use Rattle.std.specs.Prelude.{◌≡◌, [], map, IfErr, IfOk, OnOk};
ghost use Rattle.es6_static_semantics.specs.Early.{early_pairs};
ghost use Rattle.es6_static_semantics.specs.Graphs.{specifiers};
ghost use Rattle.es6_static_semantics.specs.Outside.{outside_pairs};
ghost use Rattle.module_linker.specs.module_checks.Faults.{IsEarly, IsMisfit, IsOutside};
ghost use Rattle.module_requests.specs.Requests.{open_request};

use crate::module_checks::fault::ModuleFault;
use early_errors::first_early;
use es_text::Lines;
use es6_ast::{Module, Request};
use module_places::place_of;
use module_requests::requests_of;
use outside_constructs::first_outside;
use sqlite_items::Items;
use std::alloc::Global;

/// What a module requests, if it has no early error and nothing in it is outside the profile: one request for each specifier, in
/// text order, none of which names a module yet.
pub fn checked_requests(
    alloc: Global,
    lines: &Lines,
    tree: &Module,
) -> Result<Items<Request>, ModuleFault>
    ensures legal { OnOk result (early_pairs tree.now ≡ []) }
    ensures inside { OnOk result (outside_pairs tree.now ≡ []) }
    ensures requests { IfOk result (λ requests. requests ≡ map open_request (specifiers tree.now)) }
    ensures fault { IfErr result (λ fault. IsMisfit lines.now tree.now fault) }
{
    legal(alloc, lines, tree)?;
    inside(alloc, lines, tree)?;
    Ok(requests_of(alloc, tree)?)
}

fn legal(alloc: Global, lines: &Lines, tree: &Module) -> Result<(), ModuleFault>
    ensures ok { OnOk result (early_pairs tree.now ≡ []) }
    ensures err { IfErr result (λ fault. IsEarly lines.now tree.now fault) }
{
    match first_early(alloc, tree)? {
        None => Ok(()),
        Some(found) => Err(ModuleFault::Early {
            place: place_of(lines, found.at),
            rule: found.rule,
        }),
    }
}

fn inside(alloc: Global, lines: &Lines, tree: &Module) -> Result<(), ModuleFault>
    ensures ok { OnOk result (outside_pairs tree.now ≡ []) }
    ensures err { IfErr result (λ fault. IsOutside lines.now tree.now fault) }
{
    match first_outside(alloc, tree)? {
        None => Ok(()),
        Some(found) => Err(ModuleFault::Outside {
            place: place_of(lines, found.at),
            rule: found.rule,
        }),
    }
}
