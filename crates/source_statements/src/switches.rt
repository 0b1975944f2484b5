//! `switch` (ECMA-262, 6th edition, 13.12.9, 13.12.11): one scope for all cases, behind the subject.

ghost use Rattle.std.specs.Prelude.{◌≡◌};
ghost use Rattle.source_meaning.specs.Statements.{from_default, match_next, matched, run_cases, switch_on};
ghost use Rattle.source_moves.specs.Moves.{Steps};
ghost use Rattle.source_moves.specs.Seen.{state_of};
ghost use Rattle.source_statements.specs.Cases.{match_from, next_tested};

use crate::pending::StatementWork;
use crate::scopes::scope_entered;
use es_value::{Value, same};
use es6_ast::Case;
use source_moves::{Move, Moved, begin, impossible, push};
use source_state::{Control, Node, Nodes, State, Statements};
use std::alloc::Global;

/// Runs these cases, of which one falls through to the next.
fn run_cases<'a, W: StatementWork<'a>>(cases: Nodes<'a, Case>, st: &mut State<'a, W>) -> Moved<'a>
    ensures { Steps W.seen result st.new (run_cases cases.entry (state_of W.seen st.old)) }
{
    push(st, W::switch_body())?;
    Ok(Move::Goes(Control::Run(Statements::of_cases(cases))))
}

/// The cases from the one without a test on.
fn from_default<'a>(cases: Nodes<'a, Case>) -> Nodes<'a, Case>
    ensures { result ≡ from_default cases.entry }
{
    let mut rest = cases;
    while let Some((case, behind)) = rest.first() {
        if case.test.is_none() {
            return rest;
        }
        rest = behind;
    }
    rest
}

/// The cases from the next one with a test on.
fn next_tested<'a>(cases: Nodes<'a, Case>) -> Nodes<'a, Case>
    ensures { result ≡ next_tested cases.entry }
{
    let mut rest = cases;
    while let Some((case, behind)) = rest.first() {
        if case.test.is_some() {
            return rest;
        }
        rest = behind;
    }
    rest
}

fn match_from<'a, W: StatementWork<'a>>(
    subject: Value,
    all: Nodes<'a, Case>,
    cases: Nodes<'a, Case>,
    st: &mut State<'a, W>,
) -> Moved<'a>
    ensures { Steps W.seen result st.new (match_from subject all.entry cases.entry (state_of W.seen st.old)) }
{
    match cases.first() {
        None => run_cases(from_default(all), st),
        Some((case, _)) => match &case.test {
            None => run_cases(from_default(all), st),
            Some(test) => begin(W::matching(subject, cases, all), Node::of(test), st),
        },
    }
}

/// The next case with a test is tested; where none is equal, the default's statements run.
#[tactic(auto, using(crate::proofs::Switched::match_tested))]
fn match_next<'a, W: StatementWork<'a>>(
    subject: Value,
    all: Nodes<'a, Case>,
    cases: Nodes<'a, Case>,
    st: &mut State<'a, W>,
) -> Moved<'a>
    ensures { Steps W.seen result st.new (match_next subject all.entry cases.entry (state_of W.seen st.old)) }
{
    match_from(subject, all, next_tested(cases), st)
}

/// The test of the first case gave this.
pub fn matched<'a, W: StatementWork<'a>>(
    subject: Value,
    cases: Nodes<'a, Case>,
    all: Nodes<'a, Case>,
    value: &Value,
    st: &mut State<'a, W>,
) -> Moved<'a>
    ensures { Steps W.seen result st.new (matched subject cases.entry all.entry (state_of W.seen st.old) value.now) }
{
    match cases.first() {
        None => impossible(st),
        Some((_, rest)) => {
            if same(&subject, value) {
                run_cases(cases, st)
            } else {
                match_next(subject, all, rest, st)
            }
        }
    }
}

/// The subject is there.
pub fn switch_on<'a, W: StatementWork<'a>>(
    alloc: Global,
    cases: Nodes<'a, Case>,
    subject: Value,
    st: &mut State<'a, W>,
) -> Moved<'a>
    ensures { Steps W.seen result st.new (switch_on cases.entry (state_of W.seen st.old) subject) }
{
    let statements = Statements::of_cases(cases.share());
    scope_entered(alloc, &statements, st)?;
    let all = cases.share();
    match_next(subject, all, cases, st)
}
