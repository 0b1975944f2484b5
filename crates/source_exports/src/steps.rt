//! Where the name of a module leads in one step.

ghost use Rattle.std.specs.Prelude.{◌≡◌, ◌++◌, OnOk, IfOk};
ghost use Rattle.std.specs.List.{filter, list_any};
ghost use Rattle.std.specs.Str.{bytes_eq};
ghost use Rattle.es6_static_semantics.specs.Findings.{joined};
ghost use Rattle.source_exports.specs.Known.{entries_named, entry_ends, entry_pairs, exports_of, module_home, pair, pairs_by, place_ends, place_pairs, star_pairs, stars_of};
ghost use Rattle.source_meaning.specs.Modules.{is_default};

use crate::pair::Pair;
use module_endings::{Export, Home, Place, Summary};
use source_state::BorrowedName;
use sqlite_items::Items;
use std::alloc::{AllocError, Global};

/// What the module with this number exports itself.
pub(crate) fn exports_of(known: &[Summary], number: u32) -> &[Export]
    ensures { result.now ≡ exports_of known.now number }
{
    match known.get(number as usize) {
        None => &[],
        Some(summary) => summary.exports.as_slice(),
    }
}

/// The modules of which a module exports all names.
pub(crate) fn stars_of(
    alloc: Global,
    known: &[Summary],
    number: u32,
) -> Result<Items<u32>, AllocError>
    ensures { IfOk result (λ homes. homes ≡ stars_of known.now number) }
{
    match known.get(number as usize) {
        None => Ok(Items::new(alloc)),
        Some(summary) => module_homes(alloc, summary.stars.as_slice()),
    }
}

fn module_homes(alloc: Global, stars: &[Home]) -> Result<Items<u32>, AllocError>
    ensures { IfOk result (λ homes. homes ≡ joined module_home stars.now) }
{
    let mut homes = Items::new(alloc);
    for star in stars {
        if let Home::Module(number) = star {
            homes.push(*number)?;
        }
    }
    Ok(homes)
}

/// Whether no star exports the name.
pub(crate) fn is_default(name: &[u8]) -> bool
    ensures { result ≡ is_default name.now }
{
    name == b"default".as_slice()
}

/// Adds the binding of its own that a module exports at this place.
fn add_end<'a>(place: &'a Place, ends: &mut Items<Pair<'a>>) -> Result<(), AllocError>
    ensures { OnOk result (ends.new ≡ ends.old ++ place_ends place.now) }
{
    match place.home {
        Home::Binding(home) => ends.push(Pair::of(home, BorrowedName::of(place.name.bytes()))),
        _ => Ok(()),
    }
}

/// Adds the name of another module that a module exports at this place.
fn add_pair<'a>(place: &'a Place, pairs: &mut Items<Pair<'a>>) -> Result<(), AllocError>
    ensures { OnOk result (pairs.new ≡ pairs.old ++ place_pairs place.now) }
{
    match place.home {
        Home::Module(home) => pairs.push(Pair::of(home, BorrowedName::of(place.name.bytes()))),
        _ => Ok(()),
    }
}

/// Adds the bindings of its own that a module exports under a name.
fn add_entry_ends<'a>(
    exports: &'a [Export],
    name: &BorrowedName<'a>,
    ends: &mut Items<Pair<'a>>,
) -> Result<(), AllocError>
    ensures { OnOk result (ends.new ≡ ends.old ++ entry_ends (filter (λ e. bytes_eq e.name name.now) exports.now)) }
{
    for entry in exports {
        if entry.name.bytes() == name.bytes() {
            add_end(&entry.source, ends)?;
        }
    }
    Ok(())
}

/// Adds the names of other modules that a module exports under a name.
fn add_entry_pairs<'a>(
    exports: &'a [Export],
    name: &BorrowedName<'a>,
    pairs: &mut Items<Pair<'a>>,
) -> Result<(), AllocError>
    ensures { OnOk result (pairs.new ≡ pairs.old ++ entry_pairs (filter (λ e. bytes_eq e.name name.now) exports.now)) }
{
    for entry in exports {
        if entry.name.bytes() == name.bytes() {
            add_pair(&entry.source, pairs)?;
        }
    }
    Ok(())
}

fn is_exported<'a>(exports: &[Export], name: &BorrowedName<'a>) -> bool
    ensures { result ≡ list_any (λ e. bytes_eq e.name name.now) exports.now }
{
    for entry in exports {
        if entry.name.bytes() == name.bytes() {
            return true;
        }
    }
    false
}

/// The name in each of the modules of which all names are exported.
fn star_pairs<'a>(
    alloc: Global,
    known: &'a [Summary],
    home: u32,
    name: &BorrowedName<'a>,
) -> Result<Items<Pair<'a>>, AllocError>
    ensures { IfOk result (λ pairs. pairs ≡ star_pairs known.now home name.now) }
{
    let mut pairs = Items::new(alloc);
    if is_default(name.bytes()) {
        return Ok(pairs);
    }
    let homes = stars_of(alloc, known, home)?;
    for star in homes.as_slice() {
        pairs.push(Pair::of(*star, name.share()))?;
    }
    Ok(pairs)
}

/// Adds the bindings where the name of a module ends in one step.
pub(crate) fn add_ends<'a>(
    known: &'a [Summary],
    pair: &Pair<'a>,
    ends: &mut Items<Pair<'a>>,
) -> Result<(), AllocError>
    ensures { OnOk result (ends.new ≡ ends.old ++ entry_ends (entries_named known.now pair.now)) }
{
    let exports = exports_of(known, pair.home());
    add_entry_ends(exports, &pair.name(), ends)
}

/// The names of modules to which a name with these exports leads in one step: a module's own exports hide its stars.
fn pairs_by<'a>(
    alloc: Global,
    known: &'a [Summary],
    home: u32,
    name: &BorrowedName<'a>,
    exports: &'a [Export],
) -> Result<Items<Pair<'a>>, AllocError>
    ensures { IfOk result (λ pairs. pairs ≡ pairs_by known.now (pair home name.now) (filter (λ e. bytes_eq e.name name.now) exports.now)) }
{
    if !is_exported(exports, name) {
        return star_pairs(alloc, known, home, name);
    }
    let mut pairs = Items::new(alloc);
    add_entry_pairs(exports, name, &mut pairs)?;
    Ok(pairs)
}

/// The names of modules to which the name of a module leads in one step.
pub(crate) fn pairs_from<'a>(
    alloc: Global,
    known: &'a [Summary],
    pair: &Pair<'a>,
) -> Result<Items<Pair<'a>>, AllocError>
    ensures { IfOk result (λ pairs. pairs ≡ pairs_by known.now pair.now (entries_named known.now pair.now)) }
{
    let exports = exports_of(known, pair.home());
    pairs_by(alloc, known, pair.home(), &pair.name(), exports)
}
