//! Slots and labels.

ghost use Rattle.std.specs.Prelude.{◌≡◌, ◌+◌, IfOk};
ghost use Rattle.pass_rules.specs.yield_rules.Yields.{deeper, label, slot, under};

use core_ast::{Label, Var};
use pass_rules::yield_rules::Place;
use std::alloc::AllocError;

/// The first slot that is free.
pub(crate) fn slot(place: Place) -> Var
    ensures { result ≡ slot place }
{
    Var(place.slot)
}

/// The first label that is free.
pub(crate) fn label(place: Place) -> Label
    ensures { result ≡ label place }
{
    Label(place.label)
}

fn sum(number: u32, more: u32) -> Result<u32, AllocError>
    ensures { IfOk result (λ n. n ≡ number + more) }
{
    match number.checked_add(more) {
        Some(sum) => Ok(sum),
        None => Err(AllocError),
    }
}

/// The place with so many slots taken.
pub fn deeper(place: Place, count: u32) -> Result<Place, AllocError>
    ensures { IfOk result (λ p. p ≡ deeper count place) }
{
    let slot = sum(place.slot, count)?;
    let label = place.label;
    Ok(Place { slot, label })
}

/// The place under a statement with its label.
pub fn under(place: Place) -> Result<Place, AllocError>
    ensures { IfOk result (λ p. p ≡ under place) }
{
    let label = sum(place.label, 1)?;
    let slot = place.slot;
    Ok(Place { slot, label })
}

/// The number behind this one.
pub(crate) fn next(number: usize) -> Result<usize, AllocError>
    ensures { IfOk result (λ n. n ≡ number + 1) }
{
    match number.checked_add(1) {
        Some(next) => Ok(next),
        None => Err(AllocError),
    }
}
