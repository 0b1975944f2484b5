//! Values that loops take (ECMA-262, 6th edition, 13.7).

ghost use Rattle.source_moves.specs.Moves.{Steps};
ghost use Rattle.source_moves.specs.Seen.{state_of};
ghost use Rattle.source_values.specs.Given.{loop_given};

use crate::pending::ValueWork;
use es_value::Value;
use source_moves::Moved;
use source_state::State;
use source_statements::{
    for_of_step, for_of_stepped, for_of_valued, loop_tested, subject_valued, test_loop,
};
use source_takers::LoopTaker;
use std::alloc::Global;

/// A value is handed to a loop.
pub(crate) fn loop_given<'a, W: ValueWork<'a>>(
    alloc: Global,
    taker: LoopTaker<'a>,
    value: Value,
    st: &mut State<'a, W>,
) -> Moved<'a>
    ensures { Steps W.seen result st.new (loop_given taker.entry (state_of W.seen st.old) value) }
{
    match taker {
        LoopTaker::LoopTest(of) => loop_tested(alloc, of, &value, st),
        LoopTaker::LoopUpdate(of) => test_loop(alloc, of, st),
        LoopTaker::ForOfSubject(of) => subject_valued(alloc, of, value, st),
        LoopTaker::ForOfIterator(of) => for_of_step(alloc, of, value, st),
        LoopTaker::ForOfStep(of, iterator) => for_of_stepped(alloc, of, iterator, value, st),
        LoopTaker::ForOfValue(of, iterator) => for_of_valued(alloc, of, iterator, value, st),
    }
}
