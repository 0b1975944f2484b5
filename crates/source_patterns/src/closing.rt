//! IteratorClose under a completion (ECMA-262, 6th edition, 7.4.6).

ghost use Rattle.std.specs.Prelude.{◌≡◌};
ghost use Rattle.source_meaning.specs.Patterns.{closes, closes_unless};
ghost use Rattle.source_moves.specs.Moves.{Steps};
ghost use Rattle.source_moves.specs.Seen.{state_of};

use crate::iteration::operate_alone;
use crate::pending::PatternWork;
use es_operation_steps::Operation;
use es_value::Value;
use source_moves::{Move, Moved};
use source_state::{Completion, State};
use std::alloc::Global;

/// Closes an iterator, and hands the completion on behind that; a throw that is under way stands.
pub fn closes<'a, W: PatternWork<'a>>(
    alloc: Global,
    iterator: Value,
    completion: Completion<'a>,
    st: &mut State<'a, W>,
) -> Moved<'a>
    ensures { Steps W.seen result st.new (closes iterator completion.entry (state_of W.seen st.old)) }
{
    match completion {
        Completion::Throws(value) => {
            let work = W::closing(Completion::Throws(value));
            operate_alone(alloc, work, Operation::IteratorCloseThrown, iterator, st)
        }
        completion => {
            let work = W::closing(completion);
            operate_alone(alloc, work, Operation::IteratorClose, iterator, st)
        }
    }
}

/// Closes an iterator that isn't done.
pub fn closes_unless<'a, W: PatternWork<'a>>(
    alloc: Global,
    done: bool,
    iterator: Value,
    completion: Completion<'a>,
    st: &mut State<'a, W>,
) -> Moved<'a>
    ensures { Steps W.seen result st.new (closes_unless done iterator completion.entry (state_of W.seen st.old)) }
{
    if done {
        Ok(Move::hand(completion))
    } else {
        closes(alloc, iterator, completion, st)
    }
}
