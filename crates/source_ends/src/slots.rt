//! What takes what a target is, and closes an iterator where it is left.

ghost use Rattle.source_ends.specs.Taken.{slot_done, slot_taken};
ghost use Rattle.source_moves.specs.Moves.{Steps};
ghost use Rattle.source_moves.specs.Seen.{state_of};
ghost use Rattle.source_takers.specs.Rows.{slot_left};

use source_moves::{Moved, impossible};
use source_patterns::{PatternWork, closes_unless, element_referred, rest_referred};
use source_state::{Completion, State};
use source_takers::SlotTaker;
use std::alloc::Global;

/// A value or a reference is handed to a part of a pattern.
fn slot_referred<'a, W: PatternWork<'a>>(
    alloc: Global,
    taker: SlotTaker<'a>,
    completion: Completion<'a>,
    st: &mut State<'a, W>,
) -> Moved<'a>
    ensures { Steps W.seen result st.new (slot_taken taker.entry (state_of W.seen st.old) completion.entry) }
{
    match taker {
        SlotTaker::ElementTarget(done, _, default, taking) => {
            element_referred(alloc, done, default, taking, completion, st)
        }
        SlotTaker::RestTarget(done, taking) => rest_referred(alloc, done, taking, completion, st),
    }
}

/// A part of a pattern is left.
fn slot_left<'a, W: PatternWork<'a>>(
    alloc: Global,
    taker: SlotTaker<'a>,
    completion: Completion<'a>,
    st: &mut State<'a, W>,
) -> Moved<'a>
    ensures { Steps W.seen result st.new (slot_left taker.entry (state_of W.seen st.old) completion.entry) }
{
    match taker {
        SlotTaker::ElementTarget(done, _, _, taking) | SlotTaker::RestTarget(done, taking) => {
            closes_unless(alloc, done, taking.iterator, completion, st)
        }
    }
}

/// A completion is handed to a part of a pattern.
pub fn slot_handed<'a, W: PatternWork<'a>>(
    alloc: Global,
    taker: SlotTaker<'a>,
    completion: Completion<'a>,
    st: &mut State<'a, W>,
) -> Moved<'a>
    ensures { Steps W.seen result st.new (slot_done taker.entry (state_of W.seen st.old) completion.entry) }
{
    match completion {
        Completion::Gives(value) => slot_referred(alloc, taker, Completion::Gives(value), st),
        Completion::Refers(reference) => {
            slot_referred(alloc, taker, Completion::Refers(reference), st)
        }
        Completion::Done | Completion::Resumes(..) => impossible(st),
        Completion::Throws(value) => slot_left(alloc, taker, Completion::Throws(value), st),
        Completion::Returns(value) => slot_left(alloc, taker, Completion::Returns(value), st),
        Completion::Breaks(label) => slot_left(alloc, taker, Completion::Breaks(label), st),
        Completion::Continues(label) => slot_left(alloc, taker, Completion::Continues(label), st),
    }
}
