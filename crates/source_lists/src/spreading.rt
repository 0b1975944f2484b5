//! Spread parts of lists (ECMA-262, 6th edition, 12.2.5.2, 12.3.6.1). Their iterators are never closed.

ghost use Rattle.std.specs.Prelude.{◌≡◌, []};
ghost use Rattle.es_operation_steps.specs.Operations.{number_of};
ghost use Rattle.es_value.specs.declared.value.Value.TheVariants.{Object as ValueObject};
ghost use Rattle.source_meaning.specs.Lists.{spread_part, spread_step, spread_stepped, spread_valued};
ghost use Rattle.source_meaning.specs.Steps.{operates};
ghost use Rattle.source_moves.specs.Moves.{Steps};
ghost use Rattle.source_moves.specs.Seen.{state_of};

use crate::collecting::{list_on, with_added};
use crate::pending::ListWork;
use es_operation_steps::Operation;
use es_value::{ObjId, Value};
use source_moves::{Moved, PendingWork, operate};
use source_state::{Listing, State};
use sqlite_items::Items;
use std::alloc::Global;

/// An operation without operands, whose result goes to this work.
fn operate_alone<'a, W: PendingWork<'a>>(
    alloc: Global,
    work: W,
    operation: Operation,
    base: Value,
    st: &mut State<'a, W>,
) -> Moved<'a>
    ensures { Steps W.seen result st.new (operates (W.seen work) (number_of operation) base [] (state_of W.seen st.old)) }
{
    let operands = Items::new(alloc);
    operate(alloc, work, operation, base, operands, st)
}

/// The value of a spread part is there: its iterator is asked for.
pub fn spread_part<'a, W: ListWork<'a>>(
    alloc: Global,
    listing: Listing<'a>,
    value: Value,
    st: &mut State<'a, W>,
) -> Moved<'a>
    ensures { Steps W.seen result st.new (spread_part listing.entry (state_of W.seen st.old) value) }
{
    operate_alone(
        alloc,
        W::spread_iterator(listing),
        Operation::GetIterator,
        value,
        st,
    )
}

/// A step of the iterator.
pub fn spread_step<'a, W: ListWork<'a>>(
    alloc: Global,
    listing: Listing<'a>,
    iterator: Value,
    st: &mut State<'a, W>,
) -> Moved<'a>
    ensures { Steps W.seen result st.new (spread_step listing.entry iterator (state_of W.seen st.old)) }
{
    let base = iterator.share()?;
    let work = W::spread_step(listing, iterator);
    operate_alone(alloc, work, Operation::IteratorStep, base, st)
}

/// The value of a step's result is asked for.
fn spread_result<'a, W: ListWork<'a>>(
    alloc: Global,
    listing: Listing<'a>,
    iterator: Value,
    object: ObjId,
    st: &mut State<'a, W>,
) -> Moved<'a>
    ensures { Steps W.seen result st.new (spread_stepped listing.entry iterator (state_of W.seen st.old) (ValueObject object)) }
{
    let work = W::spread_value(listing, iterator);
    operate_alone(
        alloc,
        work,
        Operation::IteratorValue,
        Value::Object(object),
        st,
    )
}

/// A step gave its result object, or false behind the last value.
pub fn spread_stepped<'a, W: ListWork<'a>>(
    alloc: Global,
    listing: Listing<'a>,
    iterator: Value,
    value: Value,
    st: &mut State<'a, W>,
) -> Moved<'a>
    ensures { Steps W.seen result st.new (spread_stepped listing.entry iterator (state_of W.seen st.old) value) }
{
    match value {
        Value::Object(object) => spread_result(alloc, listing, iterator, object, st),
        _ => list_on(alloc, listing.collected, listing.rest, st),
    }
}

/// The value of a step is there.
#[tactic(auto, using(crate::proofs::Parts::spread))]
pub fn spread_valued<'a, W: ListWork<'a>>(
    alloc: Global,
    listing: Listing<'a>,
    iterator: Value,
    value: Value,
    st: &mut State<'a, W>,
) -> Moved<'a>
    ensures { Steps W.seen result st.new (spread_valued listing.entry iterator (state_of W.seen st.old) value) }
{
    let Listing { collected, rest } = listing;
    let collected = with_added(alloc, collected, value, st)?;
    spread_step(alloc, Listing { collected, rest }, iterator, st)
}
