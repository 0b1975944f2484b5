//! The context and the first record of a call (ECMA-262, 6th edition, 9.2.1).

ghost use Rattle.std.specs.Prelude.{◌≡◌, IfOk, OnOk};
ghost use Rattle.std.specs.Option.{option_copied};
ghost use Rattle.source_entering.specs.Entered.{own_anew};
ghost use Rattle.source_meaning.specs.Calls.{context_of, first_record, own_of, this_begun, value_of_target, with_context, within_call};
ghost use Rattle.source_moves.specs.Seen.{context_of as seen_context, state_of};

use core_state::Stack;
use es_value::Value;
use source_calls::share_own;
use source_functions::{first_bindings, is_arrow, is_derived, share_code, with_arguments};
use source_moves::{PendingWork, enter_record};
use source_state::{Call, Closure, Code, Context, EnvironmentRecord, Own, State};
use std::alloc::{AllocError, Global};

/// The same code, environment and own parts.
pub(crate) fn share_closure<'a>(closure: &Closure<'a>) -> Result<Closure<'a>, AllocError>
    ensures { IfOk result (λ shared. shared ≡ closure.now) }
{
    let environment = closure.environment.share()?;
    let own = share_own(&closure.own)?;
    Ok(Closure {
        code: share_code(&closure.code),
        environment,
        own,
        home: closure.home,
    })
}

fn value_of_target(target: Option<&Value>) -> Result<Value, AllocError>
    ensures { IfOk result (λ value. value ≡ value_of_target (option_copied target.entry)) }
{
    match target {
        None => Ok(Value::Undefined),
        Some(function) => function.share(),
    }
}

/// What a function has that is no arrow.
fn own_anew<'a, W: PendingWork<'a>>(
    home: &Value,
    call: &Call,
    st: &State<'a, W>,
) -> Result<Own, AllocError>
    ensures { IfOk result (λ own. own ≡ own_anew home.now call.now (state_of W.seen st.now)) }
{
    let callee = call.function.share()?;
    let home = home.share()?;
    let target = value_of_target(call.target.as_ref())?;
    Ok(Own {
        this_record: st.records.len(),
        callee,
        home,
        target,
    })
}

fn own_of<'a, W: PendingWork<'a>>(
    closure: &Closure<'a>,
    call: &Call,
    st: &State<'a, W>,
) -> Result<Own, AllocError>
    ensures { IfOk result (λ own. own ≡ own_of closure.now call.now (state_of W.seen st.now)) }
{
    if is_arrow(&closure.code) {
        share_own(&closure.own)
    } else {
        own_anew(&closure.own.home, call, st)
    }
}

/// The `this` that is there at once: that of a derived constructor isn't, and an arrow has none of its own (9.2.1.2, 9.2.2).
fn this_begun<'a>(code: &Code<'a>, receiver: &Value) -> Result<Option<Value>, AllocError>
    ensures { IfOk result (λ this. this ≡ this_begun code.now receiver.now) }
{
    if is_arrow(code) || is_derived(code) {
        return Ok(None);
    }
    Ok(Some(receiver.share()?))
}

/// The record that a call begins with.
fn first_record<'a, W: PendingWork<'a>>(
    alloc: Global,
    closure: &Closure<'a>,
    call: &Call,
    st: &State<'a, W>,
) -> Result<EnvironmentRecord<'a>, AllocError>
    ensures { IfOk result (λ entry. entry ≡ first_record closure.now call.now (state_of W.seen st.now)) }
{
    let bindings = first_bindings(alloc, &closure.code, call.args.as_slice(), &st.heap)?;
    let this = this_begun(&closure.code, &call.receiver)?;
    Ok(EnvironmentRecord { bindings, this })
}

/// The context of a call, in which nothing is pending yet.
fn context_of<'a, W: PendingWork<'a>>(
    alloc: Global,
    closure: &Closure<'a>,
    call: &Call,
    st: &State<'a, W>,
) -> Result<Context<W>, AllocError>
    ensures { IfOk result (λ context. seen_context W.seen context ≡ context_of closure.now call.now (state_of W.seen st.now)) }
{
    let environment = closure.environment.share()?;
    let own = own_of(closure, call, st)?;
    Ok(Context {
        environment,
        home: closure.home,
        own,
        place: st.context.place,
        frames: Stack::new(alloc),
    })
}

/// A new context, above the present one.
fn enter_context<'a, W: PendingWork<'a>>(
    context: Context<W>,
    st: &mut State<'a, W>,
) -> Result<(), AllocError>
    ensures { OnOk result (state_of W.seen st.new ≡ with_context (seen_context W.seen context) (state_of W.seen st.old)) }
{
    let caller = std::mem::replace(&mut st.context, context);
    st.callers.push(caller)
}

/// The context of a call with its first record and its arguments object.
pub(crate) fn within_call<'a, W: PendingWork<'a>>(
    alloc: Global,
    closure: &Closure<'a>,
    call: &Call,
    st: &mut State<'a, W>,
) -> Result<(), AllocError>
    ensures { OnOk result (state_of W.seen st.new ≡ within_call closure.now call.now (state_of W.seen st.old)) }
{
    let entered = first_record(alloc, closure, call, st)?;
    let context = context_of(alloc, closure, call, st)?;
    enter_context(context, st)?;
    enter_record(alloc, entered, st)?;
    with_arguments(alloc, &closure.code, call.args.as_slice(), st)
}
