//! The first early error of a module (ECMA-262, 6th edition, 15.2.1.1 and the rules of its parts).

ghost use Rattle.std.specs.Prelude.{◌≡◌, [], map, None, IfOk, IfSome};
ghost use Rattle.std.specs.Option.{option_map};
ghost use Rattle.early_findings.specs.Pairs.{least_with, pair_of};
ghost use Rattle.es6_static_semantics.specs.Findings.{IsFirst, joined, least_pair};
ghost use Rattle.es6_static_semantics.specs.Early.{early_pairs, item_found};

use crate::labels::Labels;
use crate::walk::Walk;
use early_findings::{Finder, Finding};
use es6_ast::{Item, Module};
use std::alloc::{AllocError, Global};

/// The early error of a module that comes first by its place and then by its rule (E1 to E25 of docs/PROFILE.md), if it has
/// one. Places are offsets in bytes from 0. It fails where memory runs out.
pub fn first_early(alloc: Global, tree: &Module) -> Result<Option<Finding>, AllocError>
    ensures least { IfOk result (λ found. option_map pair_of found ≡ least_pair (early_pairs tree.now)) }
    ensures first { IfOk result (λ found. IfSome found (λ finding. IsFirst (pair_of finding) (early_pairs tree.now))) }
    ensures none { IfOk result (λ found. found ≡ None → early_pairs tree.now ≡ []) }
{
    let finder = walked(alloc, tree)?;
    Ok(finder.least())
}

/// All early errors of a module.
fn walked(alloc: Global, tree: &Module) -> Result<Finder, AllocError>
    ensures { IfOk result (λ finder. finder ≡ least_pair (early_pairs tree.now)) }
{
    let items = tree.items.as_slice();
    let mut finder = items_walked(alloc, items)?;
    early_scopes::module(&mut finder, items)?;
    Ok(finder)
}

/// The errors in the items, but for those of their scopes.
fn items_walked(alloc: Global, items: &[Item]) -> Result<Finder, AllocError>
    ensures { IfOk result (λ finder. finder ≡ least_with None (joined (λ x. x.pairs) (map item_found items.now))) }
{
    let mut walk = Walk {
        finder: Finder::new(alloc),
        labels: Labels::new(alloc),
    };
    for item in items {
        walk.item(item)?;
    }
    let Walk { finder, labels: _ } = walk;
    Ok(finder)
}
