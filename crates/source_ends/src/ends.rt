//! What takes an end alone: of statements, of a pattern, of parameters.

ghost use Rattle.source_ends.specs.Taken.{end_done, end_over};
ghost use Rattle.source_moves.specs.Moves.{Steps};
ghost use Rattle.source_moves.specs.Seen.{state_of};

use source_entering::{EntryWork, parameters_bound, parameters_rest};
use source_moves::{Move, Moved, impossible};
use source_patterns::members_on;
use source_state::{Completion, Control, State};
use source_statements::{StatementWork, run_block, start, variables_on};
use source_takers::EndTaker;
use std::alloc::Global;

/// An end is handed to what takes one.
fn end_over<'a, W: EntryWork<'a> + StatementWork<'a>>(
    alloc: Global,
    taker: EndTaker<'a>,
    st: &mut State<'a, W>,
) -> Moved<'a>
    ensures { Steps W.seen result st.new (end_over taker.entry (state_of W.seen st.old)) }
{
    match taker {
        EndTaker::MembersRest(binds, value, parts) => members_on(alloc, binds, value, parts, st),
        EndTaker::StatementsRest(statements) => Ok(Move::Goes(Control::Run(statements))),
        EndTaker::VariablesRest(kind, parts) => variables_on(kind, parts, st),
        EndTaker::CatchBlock(block) => run_block(alloc, block.get(), st),
        EndTaker::Pending(completion) => Ok(Move::hand(completion)),
        EndTaker::ForOfBound(body) => start(alloc, &body, st),
        EndTaker::ParametersRest(parameters, values) => {
            parameters_rest(alloc, parameters, values, st)
        }
        EndTaker::ParametersBound(code) => parameters_bound(alloc, &code, st),
        EndTaker::ItemsRest(items) => Ok(Move::Goes(Control::RunItems(items))),
    }
}

/// A completion is handed to what takes an end.
pub fn end_handed<'a, W: EntryWork<'a> + StatementWork<'a>>(
    alloc: Global,
    taker: EndTaker<'a>,
    completion: Completion<'a>,
    st: &mut State<'a, W>,
) -> Moved<'a>
    ensures { Steps W.seen result st.new (end_done taker.entry (state_of W.seen st.old) completion.entry) }
{
    match completion {
        Completion::Done => end_over(alloc, taker, st),
        Completion::Gives(_) | Completion::Refers(_) | Completion::Resumes(..) => impossible(st),
        Completion::Throws(value) => Ok(Move::hand(Completion::Throws(value))),
        Completion::Returns(value) => Ok(Move::hand(Completion::Returns(value))),
        Completion::Breaks(label) => Ok(Move::hand(Completion::Breaks(label))),
        Completion::Continues(label) => Ok(Move::hand(Completion::Continues(label))),
    }
}
