//! The rules on lists of names.

ghost use Rattle.std.specs.Prelude.{◌≡◌, List, [], OnOk, true, max};
ghost use Rattle.es6_static_semantics.specs.Findings.{clashes, first_place, joined, maybe, repeated, shared, when};
ghost use Rattle.es6_static_semantics.specs.Early.{bound, is_restricted, restricted};
ghost use Rattle.es6_ast.specs.declared.tree.Identifier.{Identifier};
ghost use Rattle.early_names.specs.Indexes.{Indexes};
ghost use Rattle.es6_ast.specs.Targets.{AsTarget};
ghost use Rattle.early_findings.specs.Pairs.{least_with};

use crate::names::PlacedName;
use crate::places::Places;
use early_findings::Finder;
use std::alloc::AllocError;

/// Meets the rule at each name that stands before it.
pub fn repeated(finder: &mut Finder, rule: u8, names: &[PlacedName]) -> Result<(), AllocError>
    ensures { OnOk result (finder.new ≡ least_with finder.old (repeated rule [] names.now)) }
{
    let mut before = Places::new(finder.alloc());
    for name in names {
        finder.when(before.contains(name.bytes()), rule, name.begin());
        before.add(name)?;
    }
    Ok(())
}

/// Meets the rule at each name that is one of the others.
pub fn shared(
    finder: &mut Finder,
    rule: u8,
    others: &[PlacedName],
    names: &[PlacedName],
) -> Result<(), AllocError>
    ensures { OnOk result (finder.new ≡ least_with finder.old (shared rule others.now names.now)) }
{
    if names.is_empty() {
        return Ok(());
    }
    let places = Places::of(finder.alloc(), others)?;
    for name in names {
        finder.when(places.contains(name.bytes()), rule, name.begin());
    }
    Ok(())
}

/// Meets the rule for each name that is one of the others: at the later of the name and the first there.
pub fn clashes(
    finder: &mut Finder,
    rule: u8,
    names: &[PlacedName],
    others: &[PlacedName],
) -> Result<(), AllocError>
    ensures { OnOk result (finder.new ≡ least_with finder.old (clashes rule names.now others.now)) }
{
    if names.is_empty() {
        return Ok(());
    }
    let places = Places::of(finder.alloc(), others)?;
    for name in names {
        clash(finder, rule, name, &places);
    }
    Ok(())
}

fn clash(finder: &mut Finder, rule: u8, name: &PlacedName, places: &Places)
    ensures { (others : List Identifier) → Indexes places.now others → finder.new ≡ least_with finder.old (maybe (λ at. when true rule (max name.now.span.begin at)) (first_place name.now.name others)) }
{
    if let Some(at) = places.first(name.bytes()) {
        finder.when(true, rule, name.begin().max(at));
    }
}

/// E7, at a name that is bound (12.1.1, 13.3.1.1, 14.1.2, 14.2.1).
pub fn bound(finder: &mut Finder, name: &PlacedName)
    ensures { finder.new ≡ least_with finder.old (bound name.now) }
{
    finder.when(is_restricted(name.bytes()), 7, name.begin());
}

/// E7, at each of these names.
pub fn names_bound(finder: &mut Finder, names: &[PlacedName])
    ensures { finder.new ≡ least_with finder.old (joined bound names.now) }
{
    for name in names {
        bound(finder, name);
    }
}

/// E8, at a name that is assigned or updated (12.14.1, 12.4.1, 13.7.5.1).
pub fn restricted(finder: &mut Finder, name: &Option<PlacedName>)
    ensures { (x : AsTarget) → x.name ≡ name.now → finder.new ≡ least_with finder.old (restricted x) }
{
    if let Some(name) = name {
        finder.when(is_restricted(name.bytes()), 8, name.begin());
    }
}

/// `eval` and `arguments` are neither bound nor assigned (12.1.1, 14.1.2).
fn is_restricted(name: &[u8]) -> bool
    ensures { result ≡ is_restricted name.now }
{
    b"eval".as_slice() == name || b"arguments".as_slice() == name
}
