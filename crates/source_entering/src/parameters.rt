//! Parameters as they are bound, and the body behind them (ECMA-262, 6th edition, 9.2.12, 14.4.11).

ghost use Rattle.source_entering.specs.Entered.{reads_prototype};
ghost use Rattle.source_meaning.specs.Calls.{bind_parameters, code_bound, parameters_bound, parameters_rest};
ghost use Rattle.source_meaning.specs.Functions.{parameters_of};
ghost use Rattle.source_meaning.specs.Steps.{pushed};
ghost use Rattle.source_moves.specs.Moves.{Steps};
ghost use Rattle.source_moves.specs.Seen.{state_of};
ghost use Rattle.source_state.specs.declared.work.Work.{Work};

use crate::pending::EntryWork;
use es_operation_steps::Operation;
use es_realm::names::GENERATOR_PROTOTYPE;
use es_value::Value;
use es6_ast::Parameter;
use source_functions::{
    FunctionWork, are_simple, body_instantiated, is_generator, one_parameter, parameters_of,
    run_code, share_code, statements_of,
};
use source_moves::{Move, Moved, operate, push};
use source_state::{Code, Completion, Nodes, State, Statements};
use sqlite_items::Items;
use std::alloc::Global;

/// The prototype of a generator is read behind the parameters.
fn reads_prototype<'a, W: EntryWork<'a>>(
    alloc: Global,
    body: Statements<'a>,
    st: &mut State<'a, W>,
) -> Moved<'a>
    ensures { Steps W.seen result st.new (reads_prototype body.entry (state_of W.seen st.old)) }
{
    let base = st.context.own.callee.share()?;
    let mut operands = Items::new(alloc);
    operands.push(Value::Object(GENERATOR_PROTOTYPE))?;
    let work = W::generator_prototype(body);
    operate(alloc, work, Operation::PrototypeOf, base, operands, st)
}

fn code_bound<'a, W: EntryWork<'a>>(
    alloc: Global,
    code: &Code<'a>,
    st: &mut State<'a, W>,
) -> Moved<'a>
    ensures { Steps W.seen result st.new (code_bound code.now (state_of W.seen st.old)) }
{
    if is_generator(code) {
        reads_prototype(alloc, statements_of(code), st)
    } else {
        run_code(code, st)
    }
}

/// Behind the parameters the functions of the body are made, and then it runs.
pub fn parameters_bound<'a, W: EntryWork<'a>>(
    alloc: Global,
    code: &Code<'a>,
    st: &mut State<'a, W>,
) -> Moved<'a>
    ensures { Steps W.seen result st.new (parameters_bound code.now (state_of W.seen st.old)) }
{
    body_instantiated(alloc, code, st)?;
    code_bound(alloc, code, st)
}

/// The parameters that are left, with the arguments that are left.
pub fn parameters_rest<'a, W: FunctionWork<'a>>(
    alloc: Global,
    parameters: Nodes<'a, Parameter>,
    values: Items<Value>,
    st: &mut State<'a, W>,
) -> Moved<'a>
    ensures { Steps W.seen result st.new (parameters_rest parameters.entry values (state_of W.seen st.old)) }
{
    match parameters.first() {
        None => Ok(Move::hand(Completion::Done)),
        Some((first, rest)) => one_parameter(alloc, first, rest, values, st),
    }
}

/// Parameters that are no names alone are bound one by one, before the body.
fn bind_patterns<'a, W: EntryWork<'a>>(
    alloc: Global,
    code: &Code<'a>,
    args: Items<Value>,
    st: &mut State<'a, W>,
) -> Moved<'a>
    ensures { Steps W.seen result st.new (parameters_rest (parameters_of code.now) args (pushed (Work.ParametersBound code.now) (state_of W.seen st.old))) }
{
    push(st, W::parameters_bound(share_code(code)))?;
    parameters_rest(alloc, parameters_of(code), args, st)
}

/// Parameters that are names alone have their values at once.
pub fn bind_parameters<'a, W: EntryWork<'a>>(
    alloc: Global,
    code: &Code<'a>,
    args: Items<Value>,
    st: &mut State<'a, W>,
) -> Moved<'a>
    ensures { Steps W.seen result st.new (bind_parameters code.now args (state_of W.seen st.old)) }
{
    if are_simple(code) {
        parameters_bound(alloc, code, st)
    } else {
        bind_patterns(alloc, code, args, st)
    }
}
