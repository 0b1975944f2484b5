//! Values that generators take (ECMA-262, 6th edition, 14.4).

ghost use Rattle.source_moves.specs.Moves.{Steps};
ghost use Rattle.source_moves.specs.Seen.{state_of};
ghost use Rattle.source_values.specs.Given.{generator_given};

use crate::pending::ValueWork;
use es_calls::Resumption;
use es_value::Value;
use source_calls::{
    delegate, delegate_done, delegate_given, delegate_turn, delegate_value, generator_made, yields,
};
use source_moves::Moved;
use source_state::State;
use source_takers::GeneratorTaker;
use std::alloc::Global;

/// A value is handed to a generator.
pub(crate) fn generator_given<'a, W: ValueWork<'a>>(
    alloc: Global,
    taker: GeneratorTaker<'a>,
    value: Value,
    st: &mut State<'a, W>,
) -> Moved<'a>
    ensures { Steps W.seen result st.new (generator_given taker.entry (state_of W.seen st.old) value) }
{
    match taker {
        GeneratorTaker::GeneratorPrototype(body) => generator_made(alloc, body, value, st),
        GeneratorTaker::YieldValue => yields(alloc, W::yielded(), true, value, st),
        GeneratorTaker::Delegating => delegate(alloc, value, st),
        GeneratorTaker::DelegateIterator => {
            delegate_turn(alloc, value, Resumption::Next, Value::Undefined, st)
        }
        GeneratorTaker::DelegateResult(iterator, kind, sent) => {
            delegate_given(alloc, iterator, kind, sent, value, st)
        }
        GeneratorTaker::DelegateDone(iterator, kind, given) => {
            delegate_done(alloc, iterator, kind, given, value, st)
        }
        GeneratorTaker::DelegateValue(kind) => delegate_value(kind, value, st),
    }
}
