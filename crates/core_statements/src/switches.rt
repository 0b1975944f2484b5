//! Switches (ECMA-262, 6th edition, 13.12; 5.1 edition, 12.11).

ghost use Rattle.std.specs.Prelude.{◌≡◌};
ghost use Rattle.core_statements.specs.Cases.{match_from, next_tested};
ghost use Rattle.core_meaning.specs.Statements.{from_default, match_next, matched, run_cases};
ghost use Rattle.core_moves.specs.Moves.{Steps};

use core_moves::{Moved, begin, run, unlawful};
use core_state::{Cases, Expr, Frame, State, Stats};
use es_value::{Value, same};

/// Runs these cases, of which one falls through to the next.
fn run_cases<'a, M: Drop, O, W: Drop, S>(
    cases: Cases<'a>,
    st: &mut State<'a, M, O, W, S>,
) -> Moved<'a, M>
    ensures { Steps result st.new (run_cases cases.entry st.old) }
{
    run(Frame::Target(None), Stats::of_cases(cases.get()), st)
}

/// The cases from the one without a test on.
fn from_default<'a>(cases: Cases<'a>) -> Cases<'a>
    ensures { result ≡ from_default cases.entry }
{
    let nodes = cases.get();
    for at in 0..nodes.len() {
        if nodes[at].test.is_none() {
            return Cases::of(&nodes[at..]);
        }
    }
    Cases::of(&[])
}

/// The cases from the next one with a test on.
fn next_tested<'a>(cases: Cases<'a>) -> Cases<'a>
    ensures { result ≡ next_tested cases.entry }
{
    let nodes = cases.get();
    for at in 0..nodes.len() {
        if nodes[at].test.is_some() {
            return Cases::of(&nodes[at..]);
        }
    }
    Cases::of(&[])
}

fn match_from<'a, M: Drop, O, W: Drop, S>(
    value: Value,
    all: Cases<'a>,
    cases: Cases<'a>,
    st: &mut State<'a, M, O, W, S>,
) -> Moved<'a, M>
    ensures { Steps result st.new (match_from value all.entry cases.entry st.old) }
{
    match cases.first() {
        None => run_cases(from_default(all), st),
        Some((case, _)) => match &case.test {
            None => run_cases(from_default(all), st),
            Some(test) => begin(Frame::Matching(value, cases, all), Expr::of(test), st),
        },
    }
}

/// The next case with a test is tested.
pub fn match_next<'a, M: Drop, O, W: Drop, S>(
    value: Value,
    all: Cases<'a>,
    cases: Cases<'a>,
    st: &mut State<'a, M, O, W, S>,
) -> Moved<'a, M>
    ensures { Steps result st.new (match_next value all.entry cases.entry st.old) }
{
    match_from(value, all, next_tested(cases), st)
}

/// The test of the first case gave this.
pub fn matched<'a, M: Drop, O, W: Drop, S>(
    value: Value,
    cases: Cases<'a>,
    all: Cases<'a>,
    given: &Value,
    st: &mut State<'a, M, O, W, S>,
) -> Moved<'a, M>
    ensures { Steps result st.new (matched value cases.entry all.entry st.old given.now) }
{
    match cases.first() {
        None => unlawful(st),
        Some((_, rest)) => {
            if same(&value, given) {
                run_cases(cases, st)
            } else {
                match_next(value, all, rest, st)
            }
        }
    }
}
