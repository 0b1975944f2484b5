//! What takes a value alone, by area.

ghost use Rattle.source_moves.specs.Moves.{Steps};
ghost use Rattle.source_moves.specs.Seen.{state_of};
ghost use Rattle.source_values.specs.Given.{passed, value_given, valued};

use crate::assignments::assign_given;
use crate::calls::call_given;
use crate::classes::class_given;
use crate::generators::generator_given;
use crate::lists::list_given;
use crate::literals::literal_given;
use crate::loops::loop_given;
use crate::operators::operator_given;
use crate::patterns::pattern_given;
use crate::pending::ValueWork;
use crate::statements::statement_given;
use es_value::Value;
use source_moves::{Move, Moved, PendingWork, impossible};
use source_state::{Completion, State};
use source_takers::ValueTaker;
use std::alloc::Global;

/// A value is handed to what takes one.
fn value_given<'a, W: ValueWork<'a>>(
    alloc: Global,
    taker: ValueTaker<'a>,
    value: Value,
    st: &mut State<'a, W>,
) -> Moved<'a>
    ensures { Steps W.seen result st.new (value_given taker.entry (state_of W.seen st.old) value) }
{
    match taker {
        ValueTaker::List(taker) => list_given(alloc, taker, value, st),
        ValueTaker::Class(taker) => class_given(alloc, taker, value, st),
        ValueTaker::Literal(taker) => literal_given(alloc, taker, value, st),
        ValueTaker::Operator(taker) => operator_given(alloc, taker, value, st),
        ValueTaker::Assign(taker) => assign_given(alloc, taker, value, st),
        ValueTaker::Pattern(taker) => pattern_given(alloc, taker, value, st),
        ValueTaker::Statement(taker) => statement_given(alloc, taker, value, st),
        ValueTaker::Loop(taker) => loop_given(alloc, taker, value, st),
        ValueTaker::Call(taker) => call_given(alloc, taker, value, st),
        ValueTaker::Generator(taker) => generator_given(alloc, taker, value, st),
    }
}

/// Work that takes a value alone is left: no other completion that counts as one comes to it, and whatever leaves it passes on.
fn passed<'a, T: Drop, W: PendingWork<'a>>(
    _taker: T,
    completion: Completion<'a>,
    st: &State<'a, W>,
) -> Moved<'a>
    ensures { Steps W.seen result st.now (passed (state_of W.seen st.now) completion.entry) }
{
    match completion {
        Completion::Gives(_) | Completion::Refers(_) | Completion::Done | Completion::Resumes(..) =>
            impossible(st),
        Completion::Throws(value) => Ok(Move::hand(Completion::Throws(value))),
        Completion::Returns(value) => Ok(Move::hand(Completion::Returns(value))),
        Completion::Breaks(label) => Ok(Move::hand(Completion::Breaks(label))),
        Completion::Continues(label) => Ok(Move::hand(Completion::Continues(label))),
    }
}

/// A completion is handed to what takes a value.
pub fn value_handed<'a, W: ValueWork<'a>>(
    alloc: Global,
    taker: ValueTaker<'a>,
    completion: Completion<'a>,
    st: &mut State<'a, W>,
) -> Moved<'a>
    ensures { Steps W.seen result st.new (valued taker.entry (state_of W.seen st.old) completion.entry) }
{
    match completion {
        Completion::Gives(value) => value_given(alloc, taker, value, st),
        other => passed(taker, other, st),
    }
}
