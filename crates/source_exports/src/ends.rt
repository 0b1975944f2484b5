//! Where the names of modules end (ECMA-262, 6th edition, 15.2.1.16.3, by this project's own rule: all paths count, and one that comes
//! back to where it was ends nowhere).

ghost use Rattle.std.specs.Prelude.{◌≡◌, ◌++◌, OnOk, IfOk, length, sum_by};
ghost use Rattle.std.specs.List.{list_all, list_any};
ghost use Rattle.es6_static_semantics.specs.Findings.{joined};
ghost use Rattle.source_exports.specs.Known.{endings_within, ends_alone, path_limit};
ghost use Rattle.source_meaning.specs.Modules.{alone, is_pair};

use crate::pair::Pair;
use crate::steps::{add_ends, pairs_from};
use core_state::Stack;
use module_endings::Summary;
use source_state::BorrowedName;
use sqlite_items::Items;
use std::alloc::{AllocError, Global};

fn is_among<'a>(pairs: &[Pair<'a>], pair: &Pair<'a>) -> bool
    ensures { result ≡ list_any (is_pair pair.now) pairs.now }
{
    for one in pairs {
        if pair.is(one) {
            return true;
        }
    }
    false
}

/// Whether a path has been at this name.
#[tactic(auto, using(crate::proofs::Entries::any_reverse))]
fn is_seen<'a>(seen: &Stack<Pair<'a>>, pair: &Pair<'a>) -> bool
    ensures { result ≡ list_any (is_pair pair.now) seen.now }
{
    is_among(seen.as_slice(), pair)
}

/// Adds the bindings where the name of a module ends, by paths of at most so many names that come to none of those seen.
#[cycle(endings)]
fn add_endings<'a>(
    alloc: Global,
    depth: usize,
    known: &'a [Summary],
    seen: &mut Stack<Pair<'a>>,
    pair: &Pair<'a>,
    ends: &mut Items<Pair<'a>>,
) -> Result<(), AllocError>
    ensures seen { OnOk result (seen.new ≡ seen.old) }
    ensures ends { OnOk result (ends.new ≡ ends.old ++ endings_within depth known.now seen.old pair.now) }
{
    if depth == 0 {
        return Ok(());
    }
    if is_seen(seen, pair) {
        return Ok(());
    }
    add_ends(known, pair, ends)?;
    let pairs = pairs_from(alloc, known, pair)?;
    seen.push(pair.share())?;
    add_all_endings(alloc, depth - 1, known, seen, pairs.as_slice(), ends)?;
    let _last = seen.pop();
    Ok(())
}

#[cycle(endings)]
fn add_all_endings<'a>(
    alloc: Global,
    depth: usize,
    known: &'a [Summary],
    seen: &mut Stack<Pair<'a>>,
    pairs: &[Pair<'a>],
    ends: &mut Items<Pair<'a>>,
) -> Result<(), AllocError>
    ensures seen { OnOk result (seen.new ≡ seen.old) }
    ensures ends { OnOk result (ends.new ≡ ends.old ++ joined (endings_within depth known.now seen.old) pairs.now) }
{
    for pair in pairs {
        add_endings(alloc, depth, known, seen, pair, ends)?;
    }
    Ok(())
}

fn are_all<'a>(pairs: &[Pair<'a>], pair: &Pair<'a>) -> bool
    ensures { result ≡ list_all (is_pair pair.now) pairs.now }
{
    for one in pairs {
        if !pair.is(one) {
            return false;
        }
    }
    true
}

/// The one binding among these, if they are all the same.
fn alone<'a>(ends: &[Pair<'a>]) -> Option<Pair<'a>>
    ensures { result ≡ alone ends.now }
{
    match ends.split_first() {
        None => None,
        Some((first, rest)) => {
            if are_all(rest, first) {
                Some(first.share())
            } else {
                None
            }
        }
    }
}

/// How many names the modules export themselves.
fn export_count(known: &[Summary]) -> Result<usize, AllocError>
    ensures { IfOk result (λ count. count ≡ sum_by (λ s. length s.exports) known.now) }
{
    let mut count: usize = 0;
    for summary in known {
        count = count.checked_add(summary.exports.len()).ok_or(AllocError)?;
    }
    Ok(count)
}

/// No path without a return is longer.
fn path_limit(known: &[Summary]) -> Result<usize, AllocError>
    ensures { IfOk result (λ limit. limit ≡ path_limit known.now) }
{
    let names = export_count(known)?.checked_add(1).ok_or(AllocError)?;
    let steps = known.len().checked_mul(names).ok_or(AllocError)?;
    steps.checked_add(1).ok_or(AllocError)
}

/// The one binding where the name of a module ends, if there is just one.
pub fn ends_alone<'a>(
    alloc: Global,
    known: &'a [Summary],
    home: u32,
    name: BorrowedName<'a>,
) -> Result<Option<Pair<'a>>, AllocError>
    ensures { IfOk result (λ end. end ≡ ends_alone known.now home name.entry) }
{
    let limit = path_limit(known)?;
    let pair = Pair::of(home, name);
    let mut seen = Stack::new(alloc);
    let mut ends = Items::new(alloc);
    add_endings(alloc, limit, known, &mut seen, &pair, &mut ends)?;
    Ok(alone(ends.as_slice()))
}
