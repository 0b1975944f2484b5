//! Values that `super` and heritages take (ECMA-262, 6th edition, 12.3.5, 14.5).

ghost use Rattle.source_moves.specs.Moves.{Steps};
ghost use Rattle.source_moves.specs.Seen.{state_of};
ghost use Rattle.source_values.specs.Given.{class_given};

use crate::pending::ValueWork;
use es_value::Value;
use source_expressions::{super_keyed, super_named};
use source_moves::{Moved, bind_this};
use source_objects::{heritage_given, heritage_valued};
use source_state::State;
use source_takers::ClassTaker;
use std::alloc::Global;

/// A value is handed to `super` or to a heritage.
pub(crate) fn class_given<'a, W: ValueWork<'a>>(
    alloc: Global,
    taker: ClassTaker<'a>,
    value: Value,
    st: &mut State<'a, W>,
) -> Moved<'a>
    ensures { Steps W.seen result st.new (class_given taker.entry (state_of W.seen st.old) value) }
{
    match taker {
        ClassTaker::SuperKey(wanted) => super_keyed(alloc, wanted, value, st),
        ClassTaker::SuperKeyed(wanted) => super_named(alloc, wanted, value, st),
        ClassTaker::SuperMade => bind_this(alloc, value, st),
        ClassTaker::Heritage(class) => heritage_valued(alloc, class, value, st),
        ClassTaker::HeritagePrototype(class, heritage) => {
            heritage_given(alloc, class, heritage, value, st)
        }
    }
}
