//! Calls and constructions in expressions (ECMA-262, 6th edition, 9.2.2, 12.3.3 and 12.3.4; 5.1 edition, 11.2.2, 11.2.3 and 13.2.2).

ghost use Rattle.std.specs.Prelude.{◌≡◌, ◌∷◌, [], IfOk, MatchOption};
ghost use Rattle.core_meaning.specs.Calls.{call, call_with, construct, construct_by, making};
ghost use Rattle.core_meaning.specs.Expressions.{user_at, with_all};
ghost use Rattle.core_meaning.specs.Rows.{controls, pushed};
ghost use Rattle.core_moves.specs.Moves.{Steps};
ghost use Rattle.core_state.specs.declared.frame.Control.{Control};
ghost use Rattle.core_state.specs.declared.frame.Frame.{Frame};
ghost use Rattle.es_calls.specs.Calls.{begun};
ghost use Rattle.es_operators.specs.Functions.{constructor_of};
ghost use Rattle.es_value.specs.declared.value.Value.TheVariants.{Undefined as ValueUndefined};

use core_moves::{
    CoreRows, Move, Moved, StateOf, call as call_function, call_current, construct as constructs,
    due, leave, push, raise, unlawful, user_at, users,
};
use core_state::{Call, Control, CoreValue, Current, Frame, Strict};
use es_calls::{BuiltinCall, ErrorKind};
use es_heap::Class;
use es_operators::{Constructor, constructor_of};
use es_outside::Site;
use es_value::Value;
use sqlite_items::Items;
use std::alloc::AllocError;

/// A call with the parts as arguments (12.3.4).
pub(crate) fn call<'a, R: CoreRows<'a>>(
    rows: &R,
    strict: Strict<'a, R::Mark>,
    st: &mut StateOf<'a, R>,
) -> Moved<'a, R::Mark>
    ensures { Steps result st.new (call strict.entry st.old) }
{
    match users(rows.alloc(), strict.values.as_slice())? {
        None => unlawful(st),
        Some(args) => call_current(rows.alloc(), strict, args, st),
    }
}

/// The first of these values, and those behind it.
fn first_of(values: Items<Value>) -> Option<(Value, Items<Value>)>
    ensures { MatchOption result (values ≡ []) (λ p. values ≡ p.0 ∷ p.1) }
{
    let mut values = values;
    if values.is_empty() {
        return None;
    }
    let first = values.remove(0);
    Some((first, values))
}

fn call_with_all<'a, R: CoreRows<'a>>(
    strict: Strict<'a, R::Mark>,
    args: Items<Value>,
    st: &mut StateOf<'a, R>,
) -> Moved<'a, R::Mark>
    ensures { Steps result st.new (call_with strict.entry st.old args) }
{
    let Strict {
        current,
        site,
        links,
        ..
    } = strict;
    match (first_of(args), user_at(current)) {
        (Some((receiver, args)), Some(function)) => call_function(
            Frame::After(links),
            due(function, receiver, args, site),
            st,
        ),
        _ => unlawful(st),
    }
}

/// A call whose first part is the receiver.
pub(crate) fn call_with<'a, R: CoreRows<'a>>(
    rows: &R,
    strict: Strict<'a, R::Mark>,
    st: &mut StateOf<'a, R>,
) -> Moved<'a, R::Mark>
    ensures { Steps result st.new (with_all strict.entry st.old (call_with strict.entry st.old)) }
{
    match users(rows.alloc(), strict.values.as_slice())? {
        None => unlawful(st),
        Some(args) => call_with_all::<R>(strict, args, st),
    }
}

/// The prototype of what a function constructs was read: the object is made, and the function called.
pub fn making<'a, R: CoreRows<'a>>(
    rows: &R,
    function: Value,
    args: Items<Value>,
    target: Value,
    proto: Value,
    st: &mut StateOf<'a, R>,
) -> Moved<'a, R::Mark>
    ensures { Steps result st.new (making function args target st.old proto) }
{
    match proto {
        Value::Object(proto) => {
            let id = st.heap.make(rows.alloc(), Some(proto), Class::Object)?;
            let call = Call {
                function,
                receiver: Value::Object(id),
                args,
                target: Some(target),
                site: None,
            };
            call_function(Frame::Made(Value::Object(id)), call, st)
        }
        _ => unlawful(st),
    }
}

/// An error constructor is called as a function.
fn make_error<'a, R: CoreRows<'a>>(
    rows: &R,
    builtin: u16,
    args: Items<Value>,
    site: Option<Site>,
    st: &StateOf<'a, R>,
) -> Moved<'a, R::Mark>
    ensures { Steps result st.now (controls (Control.Turn site (begun builtin ValueUndefined args)) st.now) }
{
    let call = BuiltinCall::begin(rows.alloc(), builtin, Value::Undefined, args);
    Ok(Move::Goes(Control::Turn(site, call)))
}

#[tactic(auto, unfolding(core_meaning::specs::Calls::construct_by))]
fn construct_by<'a, R: CoreRows<'a>>(
    rows: &R,
    function: Value,
    args: Items<Value>,
    site: Option<Site>,
    constructor: Constructor,
    st: &mut StateOf<'a, R>,
) -> Moved<'a, R::Mark>
    ensures { Steps result st.new (construct_by function args site st.old constructor) }
{
    match constructor {
        Constructor::Runs(_) => {
            let target = function.share()?;
            constructs(rows.alloc(), function, args, target, st)
        }
        Constructor::MakesError(builtin) => make_error(rows, builtin, args, site, st),
        Constructor::Leaves(exit) => leave(st, exit),
        Constructor::Fails => raise(rows.alloc(), ErrorKind::TypeError, st),
    }
}

fn construct_with<'a, R: CoreRows<'a>>(
    rows: &R,
    function: Value,
    args: Items<Value>,
    strict: Strict<'a, R::Mark>,
    st: &mut StateOf<'a, R>,
) -> Moved<'a, R::Mark>
    ensures { Steps result st.new (construct_by function args strict.entry.site (pushed (Frame.After strict.entry.links) st.old) (constructor_of (R.rows rows.now).edition st.old.heap function)) }
{
    let alloc = rows.alloc();
    let constructor = constructor_of(alloc, rows.edition(), &st.heap, &function)?;
    let site = strict.site;
    push(st, Frame::After(strict.links))?;
    construct_by(rows, function, args, site, constructor, st)
}

/// `new` (12.3.3.1.1; 5.1 edition, 11.2.2).
pub(crate) fn construct<'a, R: CoreRows<'a>>(
    rows: &R,
    strict: Strict<'a, R::Mark>,
    st: &mut StateOf<'a, R>,
) -> Moved<'a, R::Mark>
    ensures { Steps result st.new (construct (R.rows rows.now) strict.entry st.old) }
{
    let function = user_of(&strict.current)?;
    let args = users(rows.alloc(), strict.values.as_slice())?;
    match (function, args) {
        (Some(function), Some(args)) => construct_with(rows, function, args, strict, st),
        _ => unlawful(st),
    }
}

/// The value that an expression is at, if the program sees it.
fn user_of<M>(current: &Current<M>) -> Result<Option<Value>, AllocError>
    ensures { IfOk result (λ value. value ≡ user_at current.now) }
{
    match current {
        Current::Has(CoreValue::User(value)) => Ok(Some(value.share()?)),
        _ => Ok(None),
    }
}
