//! Values that patterns take (ECMA-262, 6th edition, 12.14.5, 13.3.3).

ghost use Rattle.source_moves.specs.Moves.{Steps};
ghost use Rattle.source_moves.specs.Seen.{state_of};
ghost use Rattle.source_values.specs.Given.{pattern_given};

use crate::pending::ValueWork;
use es_value::Value;
use source_moves::Moved;
use source_patterns::{
    element_stepped, element_valued, elements_on, member_valued, rest_stepped, rest_valued,
    settled, skipped,
};
use source_state::State;
use source_takers::PatternTaker;
use std::alloc::Global;

/// A value is handed to a pattern.
pub(crate) fn pattern_given<'a, W: ValueWork<'a>>(
    alloc: Global,
    taker: PatternTaker<'a>,
    value: Value,
    st: &mut State<'a, W>,
) -> Moved<'a>
    ensures { Steps W.seen result st.new (pattern_given taker.entry (state_of W.seen st.old) value) }
{
    match taker {
        PatternTaker::PatternIterator(binds, parts) => {
            elements_on(alloc, binds, value, parts, false, st)
        }
        PatternTaker::ElementStep(slot, default, taking) => {
            element_stepped(alloc, slot, default, taking, value, st)
        }
        PatternTaker::ElementValue(slot, default, taking) => {
            element_valued(alloc, slot, default, taking, value, st)
        }
        PatternTaker::SkipStep(taking) => skipped(alloc, taking, &value, st),
        PatternTaker::RestStep(slot, array, taking) => {
            rest_stepped(alloc, slot, array, taking, value, st)
        }
        PatternTaker::RestValue(slot, array, taking) => {
            rest_valued(alloc, slot, array, taking, value, st)
        }
        PatternTaker::MemberValue(binds, base, slot, default, parts) => {
            member_valued(alloc, binds, base, slot, default, parts, value, st)
        }
        PatternTaker::Defaulted(binds, slot) => settled(alloc, binds, slot, value, st),
    }
}
