//! What takes what a generator is resumed with (ECMA-262, 6th edition, 25.3.3).

ghost use Rattle.source_ends.specs.Taken.{waiting_done, waiting_resumed};
ghost use Rattle.source_moves.specs.Moves.{Steps};
ghost use Rattle.source_moves.specs.Seen.{state_of};

use es_calls::Resumption;
use es_value::Value;
use source_calls::{CallWork, arrives, delegate_turn, starts};
use source_moves::{Move, Moved, impossible};
use source_state::{Completion, State};
use source_takers::ResumptionTaker;
use std::alloc::Global;

/// What a generator is resumed with.
fn resumed<'a, W: CallWork<'a>>(
    alloc: Global,
    taker: ResumptionTaker<'a>,
    kind: Resumption,
    value: Value,
    st: &mut State<'a, W>,
) -> Moved<'a>
    ensures { Steps W.seen result st.new (waiting_resumed taker.entry (state_of W.seen st.old) kind value) }
{
    match taker {
        ResumptionTaker::GeneratorStart(body) => starts(body, st),
        ResumptionTaker::Yielded => arrives(kind, value, st),
        ResumptionTaker::Delegated(iterator) => delegate_turn(alloc, iterator, kind, value, st),
    }
}

/// A completion is handed to a generator that waits.
pub fn resumption_handed<'a, W: CallWork<'a>>(
    alloc: Global,
    taker: ResumptionTaker<'a>,
    completion: Completion<'a>,
    st: &mut State<'a, W>,
) -> Moved<'a>
    ensures { Steps W.seen result st.new (waiting_done taker.entry (state_of W.seen st.old) completion.entry) }
{
    match completion {
        Completion::Resumes(kind, value) => resumed(alloc, taker, kind, value, st),
        Completion::Gives(_) | Completion::Refers(_) | Completion::Done => impossible(st),
        Completion::Throws(value) => Ok(Move::hand(Completion::Throws(value))),
        Completion::Returns(value) => Ok(Move::hand(Completion::Returns(value))),
        Completion::Breaks(label) => Ok(Move::hand(Completion::Breaks(label))),
        Completion::Continues(label) => Ok(Move::hand(Completion::Continues(label))),
    }
}
