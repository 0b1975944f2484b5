//! Values that statements take (ECMA-262, 6th edition, 13, 15.2.3.11).

ghost use Rattle.source_meaning.specs.Environments.{initialized};
ghost use Rattle.source_meaning.specs.State.{Done};
ghost use Rattle.source_meaning.specs.Steps.{hands};
ghost use Rattle.source_moves.specs.Moves.{Steps};
ghost use Rattle.source_moves.specs.Seen.{state_of};
ghost use Rattle.source_values.specs.Given.{statement_given};

use crate::pending::ValueWork;
use es_value::Value;
use source_moves::{Move, Moved, PendingWork, initialize};
use source_state::{BorrowedName, Completion, State};
use source_statements::{chosen, matched, switch_on, variable_matched};
use source_takers::StatementTaker;
use std::alloc::Global;

/// The value of a name that is declared.
fn name_given<'a, W: PendingWork<'a>>(
    alloc: Global,
    name: &BorrowedName<'a>,
    value: Value,
    st: &mut State<'a, W>,
) -> Moved<'a>
    ensures { Steps W.seen result st.new (hands Done (initialized name.now value (state_of W.seen st.old))) }
{
    initialize(alloc, name.bytes(), value, st);
    Ok(Move::hand(Completion::Done))
}

/// A value is handed to a statement.
pub(crate) fn statement_given<'a, W: ValueWork<'a>>(
    alloc: Global,
    taker: StatementTaker<'a>,
    value: Value,
    st: &mut State<'a, W>,
) -> Moved<'a>
    ensures { Steps W.seen result st.new (statement_given taker.entry (state_of W.seen st.old) value) }
{
    match taker {
        StatementTaker::VariableValue(kind, pattern, parts) => {
            variable_matched(kind, pattern, parts, value, st)
        }
        StatementTaker::Chosen(body, conditions, otherwise) => {
            chosen(alloc, body, conditions, otherwise, &value, st)
        }
        StatementTaker::Returning => Ok(Move::hand(Completion::Returns(value))),
        StatementTaker::Throwing => Ok(Move::hand(Completion::Throws(value))),
        StatementTaker::Subject(cases) => switch_on(alloc, cases, value, st),
        StatementTaker::Matching(subject, cases, all) => matched(subject, cases, all, &value, st),
        StatementTaker::NameGiven(name) => name_given(alloc, &name, value, st),
    }
}
