//! The first construct of a module that is outside the profile.

ghost use Rattle.std.specs.Prelude.{◌≡◌, [], None, IfOk, IfSome};
ghost use Rattle.std.specs.Option.{option_map};
ghost use Rattle.early_findings.specs.Pairs.{pair_of};
ghost use Rattle.es6_static_semantics.specs.Findings.{IsFirst, least_pair};
ghost use Rattle.es6_static_semantics.specs.Outside.{outside_pairs};

use crate::walk::Walk;
use early_findings::{Finder, Finding};
use es6_ast::Module;
use module_scopes::{Bindings, Environment};
use std::alloc::{AllocError, Global};

/// The first construct of a module that is outside the profile, by its place and then by its rule (U6 to U15 of
/// docs/PROFILE.md), if there is one. Places are offsets in bytes from 0. It fails where memory runs out.
pub fn first_outside(alloc: Global, tree: &Module) -> Result<Option<Finding>, AllocError>
    ensures least { IfOk result (λ found. option_map pair_of found ≡ least_pair (outside_pairs tree.now)) }
    ensures first { IfOk result (λ found. IfSome found (λ finding. IsFirst (pair_of finding) (outside_pairs tree.now))) }
    ensures none { IfOk result (λ found. found ≡ None → outside_pairs tree.now ≡ []) }
{
    least_outside(alloc, tree)
}

fn least_outside(alloc: Global, tree: &Module) -> Result<Option<Finding>, AllocError>
    ensures { IfOk result (λ found. option_map pair_of found ≡ least_pair (outside_pairs tree.now)) }
{
    let items = tree.items.as_slice();
    let mut bindings = Bindings::new(alloc);
    bindings.items(items)?;
    let mut environment = Environment::new(alloc);
    environment.enter(bindings)?;
    let mut walk = Walk {
        finder: Finder::new(alloc),
        environment,
    };
    for item in items {
        walk.item(item)?;
    }
    Ok(walk.finder.least())
}
