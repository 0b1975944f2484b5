//! What takes a completion: a row for each frame, by what it takes.

ghost use Rattle.source_meaning.specs.Frames.{handed};
ghost use Rattle.source_moves.specs.Moves.{Steps};
ghost use Rattle.source_moves.specs.Seen.{state_of};

use crate::pending::StepWork;
use source_ends::{
    body_handed, caller_handed, end_handed, resumption_handed, scope_handed, slot_handed,
    target_handed,
};
use source_moves::Moved;
use source_state::{Completion, State};
use source_takers::Taker;
use source_values::value_handed;
use std::alloc::Global;

/// A completion is handed to pending work.
pub(crate) fn handed<'a, W: StepWork<'a>>(
    alloc: Global,
    work: W,
    completion: Completion<'a>,
    st: &mut State<'a, W>,
) -> Moved<'a>
    ensures { Steps W.seen result st.new (handed (W.seen work) (state_of W.seen st.old) completion.entry) }
{
    match work.taken_apart() {
        Taker::Value(taker) => value_handed(alloc, taker, completion, st),
        Taker::Target(taker) => target_handed(alloc, taker, completion, st),
        Taker::End(taker) => end_handed(alloc, taker, completion, st),
        Taker::Resumption(taker) => resumption_handed(alloc, taker, completion, st),
        Taker::Scope(taker) => scope_handed(alloc, taker, completion, st),
        Taker::Caller(taker) => caller_handed(alloc, taker, completion, st),
        Taker::Body(taker) => body_handed(alloc, taker, completion, st),
        Taker::Slot(taker) => slot_handed(alloc, taker, completion, st),
    }
}
