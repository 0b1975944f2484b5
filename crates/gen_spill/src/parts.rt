//! The parts of a link: up to the last that has statements, each goes into a slot.

ghost use Rattle.std.specs.Prelude.{◌≡◌, IfOk};
ghost use Rattle.pass_rules.specs.yield_rules.Yields.{behind_last, has, settle, settle_one, settled};

use crate::build::{in_slot, keep};
use crate::places::{deeper, next};
use pass_rules::yield_rules::{Place, Settled, Spilled};
use sqlite_items::Items;
use std::alloc::{AllocError, Global};
use std::collections::VecDeque;

/// Whether statements stand before it.
pub(crate) fn has(part: &Spilled) -> bool
    ensures { result ≡ has part.now }
{
    part.before.len() != 0
}

/// The parts, and the statements before them.
pub fn settled(alloc: Global, place: Place, parts: Vec<Spilled>) -> Result<Settled, AllocError>
    ensures { IfOk result (λ t. t ≡ settled place parts.items) }
{
    let last = behind_last(parts.as_slice())?;
    let begin = Settled {
        before: Items::new(alloc),
        parts: Items::from_vec(Vec::with_capacity(alloc, parts.len())?),
    };
    settle(alloc, place, last, VecDeque::from_vec(parts), begin)
}

fn behind_last(parts: &[Spilled]) -> Result<usize, AllocError>
    ensures { IfOk result (λ n. n ≡ behind_last 0 0 parts.now) }
{
    let mut last = 0;
    let mut i = 0;
    for part in parts {
        i = next(i)?;
        if has(part) {
            last = i;
        }
    }
    Ok(last)
}

fn settle(
    alloc: Global,
    place: Place,
    last: usize,
    parts: VecDeque<Spilled>,
    begin: Settled,
) -> Result<Settled, AllocError>
    ensures { IfOk result (λ t. t ≡ settle place 0 last parts.items begin) }
{
    let mut left = parts;
    let mut made = begin;
    let mut at = place;
    let mut i = 0;
    while let Some(part) = left.pop_front() {
        i = next(i)?;
        made = settle_one(alloc, at, i < last, part, made)?;
        at = deeper(at, 1)?;
    }
    Ok(made)
}

fn settle_one(
    alloc: Global,
    place: Place,
    goes_on: bool,
    part: Spilled,
    made: Settled,
) -> Result<Settled, AllocError>
    ensures { IfOk result (λ t. t ≡ settle_one place goes_on part made) }
{
    let Spilled { before: more, rest } = part;
    let Settled {
        mut before,
        mut parts,
    } = made;
    before.append(more)?;
    if goes_on {
        keep(alloc, place, rest, &mut before)?;
        parts.push(in_slot(alloc, place))?;
        return Ok(Settled { before, parts });
    }
    parts.push(rest)?;
    Ok(Settled { before, parts })
}
