//! Values that calls take (ECMA-262, 6th edition, 7.4.6, 9.2).

ghost use Rattle.source_moves.specs.Moves.{Steps};
ghost use Rattle.source_moves.specs.Seen.{state_of};
ghost use Rattle.source_values.specs.Given.{call_given};

use crate::pending::ValueWork;
use es_value::Value;
use source_calls::{constructed, derived_given, making};
use source_functions::parameter_matched;
use source_moves::{Move, Moved};
use source_state::{Completion, State};
use source_takers::CallTaker;
use std::alloc::Global;

/// A value is handed to a call.
pub(crate) fn call_given<'a, W: ValueWork<'a>>(
    alloc: Global,
    taker: CallTaker<'a>,
    value: Value,
    st: &mut State<'a, W>,
) -> Moved<'a>
    ensures { Steps W.seen result st.new (call_given taker.entry (state_of W.seen st.old) value) }
{
    match taker {
        CallTaker::Ignoring => Ok(Move::hand(Completion::Done)),
        CallTaker::Closing(completion) => Ok(Move::hand(completion)),
        CallTaker::ParameterDefault(pattern, parameters, values) => {
            parameter_matched(pattern, value, parameters, values, st)
        }
        CallTaker::Making(function, args, target) => {
            making(alloc, function, args, target, value, st)
        }
        CallTaker::Made(object) => Ok(Move::give(constructed(object, value))),
        CallTaker::Derived(number) => derived_given(alloc, number, value, st),
    }
}
