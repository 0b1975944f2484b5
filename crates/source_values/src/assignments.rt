//! Values that updates and assignments take (ECMA-262, 6th edition, 12.4, 12.14).

ghost use Rattle.source_meaning.specs.References.{put_value};
ghost use Rattle.source_meaning.specs.State.{Assigns, Behind, Destructure};
ghost use Rattle.source_meaning.specs.Steps.{controls, pushed};
ghost use Rattle.source_moves.specs.Moves.{Steps};
ghost use Rattle.source_moves.specs.Seen.{state_of};
ghost use Rattle.source_values.specs.Given.{assign_given};

use crate::pending::ValueWork;
use es_value::Value;
use es6_ast::Pattern;
use source_expressions::{assign_right, update_numbered, update_read};
use source_moves::{Move, Moved, PendingWork, begin, push, put_value};
use source_state::{Binds, Control, Node, Reference, State};
use source_takers::AssignTaker;
use std::alloc::Global;

/// The value is written, which an assignment gives.
fn assigned<'a, W: PendingWork<'a>>(
    alloc: Global,
    reference: Reference<'a>,
    value: Value,
    st: &mut State<'a, W>,
) -> Moved<'a>
    ensures { Steps W.seen result st.new (put_value reference.entry value value (state_of W.seen st.old)) }
{
    let given = value.share()?;
    put_value(alloc, reference, value, given, st)
}

/// A pattern takes the value apart, which an assignment gives.
fn taken_apart<'a, W: PendingWork<'a>>(
    pattern: Node<'a, Pattern>,
    value: Value,
    st: &mut State<'a, W>,
) -> Moved<'a>
    ensures { Steps W.seen result st.new (controls (Destructure Assigns pattern.entry value) (pushed (Behind value) (state_of W.seen st.old))) }
{
    let given = value.share()?;
    push(st, W::behind(given))?;
    Ok(Move::Goes(Control::Destructure(Binds::Assigns, pattern, value)))
}

/// A value is handed to an update or to an assignment.
pub(crate) fn assign_given<'a, W: ValueWork<'a>>(
    alloc: Global,
    taker: AssignTaker<'a>,
    value: Value,
    st: &mut State<'a, W>,
) -> Moved<'a>
    ensures { Steps W.seen result st.new (assign_given taker.entry (state_of W.seen st.old) value) }
{
    match taker {
        AssignTaker::UpdateOld(operator, reference) => {
            update_read(alloc, operator, reference, value, st)
        }
        AssignTaker::UpdateNumber(operator, reference) => {
            update_numbered(alloc, operator, reference, value, st)
        }
        AssignTaker::AssignOld(operator, reference, x) => {
            begin(W::assign_right(operator, reference, value), x, st)
        }
        AssignTaker::AssignRight(operator, reference, old) => {
            assign_right(alloc, operator, reference, old, value, st)
        }
        AssignTaker::AssignValue(reference) => assigned(alloc, reference, value, st),
        AssignTaker::AssignPattern(pattern) => taken_apart(pattern, value, st),
    }
}
