//! Statements (ECMA-262, 6th edition, 13; 5.1 edition, 12).

ghost use Rattle.core_ast.specs.declared.tree.CoreCase.{out-CoreCase};
ghost use Rattle.core_ast.specs.declared.tree.CoreStat.{out-CoreStat};
ghost use Rattle.core_meaning.specs.Rows.{controls};
ghost use Rattle.core_meaning.specs.Statements.{begin_stat, choose, choose_case, finish, run_stats};
ghost use Rattle.core_moves.specs.Moves.{Steps};
ghost use Rattle.core_state.specs.declared.frame.Control.{Control};

use crate::loops::{loop_of, repeat};
use core_ast::{CoreCase, CoreExpr, CoreStat};
use core_moves::{CoreRows, Move, Moved, StateOf, begin, push, run};
use core_state::{Cases, Completion, Control, Expr, Frame, Names, State, Stats};

/// A case of a choice (13.6).
fn choose_case<'a, M: Drop, O, W: Drop, S>(
    case: &'a CoreCase,
    rest: Cases<'a>,
    st: &mut State<'a, M, O, W, S>,
) -> Moved<'a, M>
    ensures { Steps result st.new (choose_case (out-CoreCase case.now).test (out-CoreCase case.now).body rest.entry st.old) }
{
    let body = Stats::of(case.body.as_slice());
    match &case.test {
        None => Ok(Move::Goes(Control::Run(body))),
        Some(test) => begin(Frame::Choice(body, rest), Expr::of(test), st),
    }
}

/// The cases that are left of a choice.
pub fn choose<'a, M: Drop, O, W: Drop, S>(
    cases: Cases<'a>,
    st: &mut State<'a, M, O, W, S>,
) -> Moved<'a, M>
    ensures { Steps result st.new (choose cases.entry st.old) }
{
    match cases.first() {
        None => Ok(Move::hand(Completion::Done)),
        Some((case, rest)) => choose_case(case, rest, st),
    }
}

/// Statements run whose end is another completion's turn (13.15).
pub fn finish<'a, M: Drop, O, W: Drop, S>(
    last: Stats<'a>,
    completion: Completion<M>,
    st: &mut State<'a, M, O, W, S>,
) -> Moved<'a, M>
    ensures { Steps result st.new (finish last.entry completion st.old) }
{
    run(Frame::Pending(completion), last, st)
}

/// An expression, whose value goes to the statements behind it (13.5).
fn evaluate<'a, M, O, W, S>(expression: &'a CoreExpr, st: &State<'a, M, O, W, S>) -> Moved<'a, M>
    ensures { Steps result st.now (controls (Control.Begin expression.now) st.now) }
{
    Ok(Move::Goes(Control::Begin(Expr::of(expression))))
}

/// Begins a statement.
#[tactic(auto, unfolding(core_meaning::specs::Statements::begin_stat))]
fn begin_stat<'a, R: CoreRows<'a>>(
    rows: &R,
    stat: &'a CoreStat,
    st: &mut StateOf<'a, R>,
) -> Moved<'a, R::Mark>
    ensures { Steps result st.new (begin_stat (R.rows rows.now) stat.now st.old (out-CoreStat stat.now)) }
{
    match stat {
        CoreStat::Do(expression) => evaluate(expression, st),
        CoreStat::If { cases } => choose(Cases::of(cases.as_slice()), st),
        CoreStat::Switch { subject, cases } => {
            let frame = Frame::Subject(Cases::of(cases.as_slice()));
            begin(frame, Expr::of(subject), st)
        }
        CoreStat::Loop {
            labels,
            test,
            update,
            body,
        } => repeat(
            loop_of(labels.as_slice(), test, update, body.as_slice()),
            st,
        ),
        CoreStat::Labelled { label, body } => {
            run(Frame::Target(Some(*label)), Stats::of(body.as_slice()), st)
        }
        CoreStat::Jump { goes_on, label } => { Ok(Move::hand(Completion::Jumps(*goes_on, *label))) }
        CoreStat::Return(value) => begin(Frame::Returning, Expr::of(value), st),
        CoreStat::Throw(value) => begin(Frame::Throwing, Expr::of(value), st),
        CoreStat::TryCatch {
            block,
            parameter,
            names,
            handler,
        } => {
            let names = Names::of(names.as_slice());
            let frame = Frame::Catching(*parameter, names, Stats::of(handler.as_slice()));
            run(frame, Stats::of(block.as_slice()), st)
        }
        CoreStat::TryFinally { block, last } => {
            let frame = Frame::Finishing(Stats::of(last.as_slice()));
            run(frame, Stats::of(block.as_slice()), st)
        }
        CoreStat::Scoped { .. } | CoreStat::Yield { .. } => rows.stat(stat, st),
    }
}

/// The statements that are left (13.2.13).
pub fn run_stats<'a, R: CoreRows<'a>>(
    rows: &R,
    stats: Stats<'a>,
    st: &mut StateOf<'a, R>,
) -> Moved<'a, R::Mark>
    ensures { Steps result st.new (run_stats (R.rows rows.now) stats.entry st.old) }
{
    match stats.first() {
        None => Ok(Move::hand(Completion::Done)),
        Some((stat, rest)) => {
            push(st, Frame::Rest(rest))?;
            begin_stat(rows, stat, st)
        }
    }
}
