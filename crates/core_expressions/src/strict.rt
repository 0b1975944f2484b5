//! Strict links whose parts are there.

ghost use Rattle.std.specs.Prelude.{◌≡◌};
ghost use Rattle.core_meaning.specs.Step.{act, act_by};
ghost use Rattle.core_moves.specs.Moves.{Steps};

use crate::invocations::{call, call_with, construct};
use crate::operators::{initialize, operator, sequence, set, step_name, unary};
use crate::properties::{accessor, define, element, hole, index, member};
use crate::references::{delete, put, step_at, update};
use core_ast::CoreOp;
use core_moves::{CoreRows, Moved, StateOf};
use core_state::Strict;

#[tactic(auto, unfolding(core_meaning::specs::Step::act_by))]
fn act_by<'a, R: CoreRows<'a>>(
    rows: &R,
    op: &'a CoreOp,
    strict: Strict<'a, R::Mark>,
    st: &mut StateOf<'a, R>,
) -> Moved<'a, R::Mark>
    ensures { Steps result st.new (act_by (R.rows rows.now) (R.core rows.now) strict.entry st.old op.now) }
{
    match op {
        CoreOp::Member(key) => member(rows, key, strict, st),
        CoreOp::Index => index(rows, strict, st),
        CoreOp::Call => call(rows, strict, st),
        CoreOp::CallWith => call_with(rows, strict, st),
        CoreOp::New => construct(rows, strict, st),
        CoreOp::Put => put(rows, strict, st),
        CoreOp::Delete => delete(rows, strict, st),
        CoreOp::Update(binary) => update(rows, *binary, strict, st),
        CoreOp::Step(by) => step_at(rows, *by, strict, st),
        CoreOp::Operator(binary) => operator(rows, *binary, strict, st),
        CoreOp::Unary(by) => unary(rows, *by, strict, st),
        CoreOp::Then => sequence::<R>(strict, st),
        CoreOp::Set(var) => set(rows, *var, strict, st),
        CoreOp::Init(var) => initialize(rows, *var, strict, st),
        CoreOp::StepVariable(by, var) => step_name(rows, *by, *var, strict, st),
        CoreOp::Element => element(rows, strict, st),
        CoreOp::Hole => hole(rows, strict, st),
        CoreOp::Define(key) => define(rows, key, strict, st),
        CoreOp::Getter(key) => accessor(rows, key, false, strict, st),
        CoreOp::Setter(key) => accessor(rows, key, true, strict, st),
        _ => rows.act(strict, st),
    }
}

/// The parts of a link are there: the operation acts.
pub(crate) fn act<'a, R: CoreRows<'a>>(
    rows: &R,
    strict: Strict<'a, R::Mark>,
    st: &mut StateOf<'a, R>,
) -> Moved<'a, R::Mark>
    ensures { Steps result st.new (act (R.rows rows.now) (R.core rows.now) strict.entry st.old) }
{
    let op = strict.op.get();
    act_by(rows, op, strict, st)
}
