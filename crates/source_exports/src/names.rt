//! The names that modules export, by `export *` too (ECMA-262, 6th edition, 15.2.1.16.2).

ghost use Rattle.std.specs.Prelude.{◌≡◌, ◌++◌, ◌∷◌, [], OnOk, IfOk, length, map, suc};
ghost use Rattle.es6_static_semantics.specs.Findings.{joined};
ghost use Rattle.source_exports.specs.Known.{exports_of, names_within, other_names};
ghost use Rattle.source_meaning.specs.Modules.{is_number};

use crate::steps::{exports_of, is_default, stars_of};
use core_state::Stack;
use module_endings::{Export, Summary};
use source_state::BorrowedName;
use sqlite_items::Items;
use std::alloc::{AllocError, Global};

fn is_number(number: u32, numbers: &[u32]) -> bool
    ensures { result ≡ is_number number numbers.now }
{
    for one in numbers {
        if number == *one {
            return true;
        }
    }
    false
}

#[tactic(auto, using(crate::proofs::Entries::number_reverse))]
fn is_seen(seen: &Stack<u32>, number: u32) -> bool
    ensures { result ≡ is_number number seen.now }
{
    is_number(number, seen.as_slice())
}

/// Adds the names of exports.
fn add_own<'a>(exports: &'a [Export], names: &mut Items<BorrowedName<'a>>) -> Result<(), AllocError>
    ensures { OnOk result (names.new ≡ names.old ++ map (λ e. e.name) exports.now) }
{
    for entry in exports {
        names.push(BorrowedName::of(entry.name.bytes()))?;
    }
    Ok(())
}

/// Adds these names, but a default: no star exports it.
fn add_others<'a>(
    others: &[BorrowedName<'a>],
    names: &mut Items<BorrowedName<'a>>,
) -> Result<(), AllocError>
    ensures { OnOk result (names.new ≡ names.old ++ other_names others.now) }
{
    for name in others {
        if !is_default(name.bytes()) {
            names.push(name.share())?;
        }
    }
    Ok(())
}

/// Adds the names that a module exports, by chains of at most so many modules that pass none of these.
#[cycle(names)]
fn add_names<'a>(
    alloc: Global,
    depth: usize,
    known: &'a [Summary],
    seen: &mut Stack<u32>,
    number: u32,
    names: &mut Items<BorrowedName<'a>>,
) -> Result<(), AllocError>
    ensures seen { OnOk result (seen.new ≡ seen.old) }
    ensures names { OnOk result (names.new ≡ names.old ++ names_within depth known.now seen.old number) }
{
    if depth == 0 {
        return Ok(());
    }
    if is_seen(seen, number) {
        return Ok(());
    }
    add_own(exports_of(known, number), names)?;
    let stars = stars_of(alloc, known, number)?;
    let mut below = Items::new(alloc);
    seen.push(number)?;
    add_all_names(alloc, depth - 1, known, seen, stars.as_slice(), &mut below)?;
    let _last = seen.pop();
    add_others(below.as_slice(), names)?;
    Ok(())
}

#[cycle(names)]
fn add_all_names<'a>(
    alloc: Global,
    depth: usize,
    known: &'a [Summary],
    seen: &mut Stack<u32>,
    numbers: &[u32],
    names: &mut Items<BorrowedName<'a>>,
) -> Result<(), AllocError>
    ensures seen { OnOk result (seen.new ≡ seen.old) }
    ensures names { OnOk result (names.new ≡ names.old ++ joined (names_within depth known.now seen.old) numbers.now) }
{
    for number in numbers {
        add_names(alloc, depth, known, seen, *number, names)?;
    }
    Ok(())
}

/// The names that a module exports. One that comes on several ways is there as often.
pub fn exported_names<'a>(
    alloc: Global,
    known: &'a [Summary],
    number: u32,
) -> Result<Items<BorrowedName<'a>>, AllocError>
    ensures { IfOk result (λ names. names ≡ names_within (suc (length known.now)) known.now [] number) }
{
    let depth = known.len().checked_add(1).ok_or(AllocError)?;
    let mut seen = Stack::new(alloc);
    let mut names = Items::new(alloc);
    add_names(alloc, depth, known, &mut seen, number, &mut names)?;
    Ok(names)
}
