//! What takes what a target is, a value or a reference, alone.

ghost use Rattle.source_ends.specs.Taken.{target_done, target_taken};
ghost use Rattle.source_moves.specs.Moves.{Steps};
ghost use Rattle.source_moves.specs.Seen.{state_of};

use source_expressions::{ExpressionWork, assign_referred, deleted, update_referred};
use source_lists::{ListWork, linked};
use source_moves::{Move, Moved, impossible};
use source_patterns::{PatternWork, member_referred, put_referred};
use source_state::{Completion, State};
use source_takers::TargetTaker;
use std::alloc::Global;

/// A value or a reference is handed to what takes either.
fn target_referred<'a, W: ExpressionWork<'a> + ListWork<'a> + PatternWork<'a>>(
    alloc: Global,
    taker: TargetTaker<'a>,
    completion: Completion<'a>,
    st: &mut State<'a, W>,
) -> Moved<'a>
    ensures { Steps W.seen result st.new (target_taken taker.entry (state_of W.seen st.old) completion.entry) }
{
    match taker {
        TargetTaker::Links(wanted, links) => linked(alloc, wanted, links, completion, st),
        TargetTaker::UpdateReference(operator) => update_referred(alloc, operator, completion, st),
        TargetTaker::Deleting => deleted(alloc, completion, st),
        TargetTaker::AssignReference(operator, x) => {
            assign_referred(alloc, operator, x, completion, st)
        }
        TargetTaker::PutTo(value) => put_referred(alloc, value, completion, st),
        TargetTaker::MemberTarget(value, key, default, parts) => {
            member_referred(alloc, value, key, default, parts, completion, st)
        }
    }
}

/// A completion is handed to what takes what a target is.
pub fn target_handed<'a, W: ExpressionWork<'a> + ListWork<'a> + PatternWork<'a>>(
    alloc: Global,
    taker: TargetTaker<'a>,
    completion: Completion<'a>,
    st: &mut State<'a, W>,
) -> Moved<'a>
    ensures { Steps W.seen result st.new (target_done taker.entry (state_of W.seen st.old) completion.entry) }
{
    match completion {
        Completion::Gives(value) => target_referred(alloc, taker, Completion::Gives(value), st),
        Completion::Refers(reference) => {
            target_referred(alloc, taker, Completion::Refers(reference), st)
        }
        Completion::Done | Completion::Resumes(..) => impossible(st),
        Completion::Throws(value) => Ok(Move::hand(Completion::Throws(value))),
        Completion::Returns(value) => Ok(Move::hand(Completion::Returns(value))),
        Completion::Breaks(label) => Ok(Move::hand(Completion::Breaks(label))),
        Completion::Continues(label) => Ok(Move::hand(Completion::Continues(label))),
    }
}
