//! Loops and jumps (ECMA-262, 6th edition, 13.7 to 13.9 and 13.13; 5.1 edition, 12.6 to 12.8 and 12.12).

ghost use Rattle.std.specs.List.{list_any};
ghost use Rattle.std.specs.Prelude.{◌≡◌};
ghost use Rattle.core_meaning.specs.Statements.{at_target, is_for, is_label, loop, loop_jumped, loop_of, loop_on, loop_tested, run_turn, target_jumped};
ghost use Rattle.core_moves.specs.Moves.{Steps};

use core_ast::{CoreExpr, CoreStat, Label};
use core_moves::{Move, Moved, begin, run};
use core_state::{Completion, Expr, Frame, Labels, Loop, State, Stats};
use es_operators::truth_of;
use es_value::Value;

fn expression<'a>(node: &'a Option<CoreExpr>) -> Option<Expr<'a>>
    ensures { result ≡ node.now }
{
    match node {
        None => None,
        Some(node) => Some(Expr::of(node)),
    }
}

/// The loop of a statement.
pub(crate) fn loop_of<'a>(
    labels: &'a [Label],
    test: &'a Option<CoreExpr>,
    update: &'a Option<CoreExpr>,
    body: &'a [CoreStat],
) -> Loop<'a>
    ensures { result ≡ loop_of labels.now test.now update.now body.now }
{
    Loop {
        labels: Labels::of(labels),
        test: expression(test),
        update: expression(update),
        body: Stats::of(body),
    }
}

fn share<'a>(node: &Option<Expr<'a>>) -> Option<Expr<'a>>
    ensures { result ≡ node.now }
{
    match node {
        None => None,
        Some(node) => Some(node.share()),
    }
}

/// One turn of a loop.
fn run_turn<'a, M: Drop, O, W: Drop, S>(
    of: Loop<'a>,
    st: &mut State<'a, M, O, W, S>,
) -> Moved<'a, M>
    ensures { Steps result st.new (run_turn of.entry st.old) }
{
    let body = of.body.share();
    run(Frame::LoopBody(of), body, st)
}

/// A loop at its test.
pub fn repeat<'a, M: Drop, O, W: Drop, S>(
    of: Loop<'a>,
    st: &mut State<'a, M, O, W, S>,
) -> Moved<'a, M>
    ensures { Steps result st.new (loop of.entry st.old) }
{
    match share(&of.test) {
        None => run_turn(of, st),
        Some(test) => begin(Frame::LoopTest(of), test, st),
    }
}

/// The test of a loop gave this.
pub fn tested<'a, M: Drop, O, W: Drop, S>(
    of: Loop<'a>,
    value: &Value,
    st: &mut State<'a, M, O, W, S>,
) -> Moved<'a, M>
    ensures { Steps result st.new (loop_tested of.entry st.old value.now) }
{
    if truth_of(value) {
        run_turn(of, st)
    } else {
        Ok(Move::hand(Completion::Done))
    }
}

/// A loop at its update.
pub fn go_on<'a, M: Drop, O, W: Drop, S>(
    of: Loop<'a>,
    st: &mut State<'a, M, O, W, S>,
) -> Moved<'a, M>
    ensures { Steps result st.new (loop_on of.entry st.old) }
{
    match share(&of.update) {
        None => repeat(of, st),
        Some(update) => begin(Frame::LoopUpdate(of), update, st),
    }
}

fn is_among(labels: &[Label], label: Label) -> bool
    ensures { result ≡ list_any (is_label label) labels.now }
{
    labels.iter().any(|own| label.0 == own.0)
}

/// Whether a jump to this label is one of a loop with these.
fn is_for(labels: &[Label], label: Option<Label>) -> bool
    ensures { result ≡ is_for labels.now label }
{
    match label {
        None => true,
        Some(label) => is_among(labels, label),
    }
}

fn at_target(target: Option<Label>, label: Option<Label>) -> bool
    ensures { result ≡ at_target target label }
{
    match (target, label) {
        (None, None) => true,
        (Some(target), Some(label)) => target.0 == label.0,
        _ => false,
    }
}

/// A jump out of the body of a loop; it is a continue where `goes_on` is true.
pub fn jumped<'a, M: Drop, O, W: Drop, S>(
    of: Loop<'a>,
    goes_on: bool,
    label: Option<Label>,
    st: &mut State<'a, M, O, W, S>,
) -> Moved<'a, M>
    ensures { Steps result st.new (loop_jumped of.entry st.old goes_on label) }
{
    if !is_for(of.labels.get(), label) {
        Ok(Move::hand(Completion::Jumps(goes_on, label)))
    } else if goes_on {
        go_on(of, st)
    } else {
        Ok(Move::hand(Completion::Done))
    }
}

/// A jump out of what has this label, or of a switch.
pub fn target_jumped<'a, M, O, W, S>(
    target: Option<Label>,
    goes_on: bool,
    label: Option<Label>,
    st: &State<'a, M, O, W, S>,
) -> Moved<'a, M>
    ensures { Steps result st.now (target_jumped target st.now goes_on label) }
{
    let is_here = !goes_on & at_target(target, label);
    if is_here {
        Ok(Move::hand(Completion::Done))
    } else {
        Ok(Move::hand(Completion::Jumps(goes_on, label)))
    }
}
