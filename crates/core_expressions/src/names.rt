//! Names (ECMA-262, 6th edition, 8.1.1, 12.1.6 and 12.5.6; 5.1 edition, 8.7, 10.2.1 and 11.4.3).

ghost use Rattle.std.specs.Prelude.{◌≡◌};
ghost use Rattle.core_meaning.specs.Names.{by_exit, if_mutable, not_bound, read, stored_at, type_of, type_unbound, write};
ghost use Rattle.core_meaning.specs.Rows.{goes, has};
ghost use Rattle.core_moves.specs.Moves.{Steps};
ghost use Rattle.es_operators.specs.Primitives.{type_name};
ghost use Rattle.es_value.specs.declared.value.Value.TheVariants.{Text as ValueText};

use core_ast::Var;
use core_moves::{
    CoreRows, Holder, Move, Moved, StateOf, leave, raise, store, unlawful, value_of, where_held,
};
use core_state::{CoreValue, Current, Links};
use es_calls::ErrorKind;
use es_operators::type_name;
use es_value::{Str, Value};

fn by_exit<'a, R: CoreRows<'a>>(
    rows: &R,
    exit: Option<u8>,
    st: &mut StateOf<'a, R>,
) -> Moved<'a, R::Mark>
    ensures { Steps result st.new (by_exit exit st.old) }
{
    match exit {
        None => raise(rows.alloc(), ErrorKind::ReferenceError, st),
        Some(number) => leave(st, number),
    }
}

/// Nothing binds the name.
fn not_bound<'a, R: CoreRows<'a>>(rows: &R, var: Var, st: &mut StateOf<'a, R>) -> Moved<'a, R::Mark>
    ensures { Steps result st.new (not_bound (R.rows rows.now) var st.old) }
{
    by_exit(rows, rows.unbound(var), st)
}

/// The value of a name goes on (8.1.1.1.6).
pub(crate) fn read<'a, R: CoreRows<'a>>(
    rows: &R,
    var: Var,
    links: Links<'a>,
    st: &mut StateOf<'a, R>,
) -> Moved<'a, R::Mark>
    ensures { Steps result st.new (read (R.rows rows.now) var links.entry st.old) }
{
    match value_of(rows, var, st)? {
        None => not_bound(rows, var, st),
        Some(value) => Ok(Move::go(Current::Has(value), links)),
    }
}

/// The name of a value's type goes on.
pub(crate) fn type_of_value<'a, R: CoreRows<'a>>(
    rows: &R,
    value: &Value,
    links: Links<'a>,
    st: &StateOf<'a, R>,
) -> Moved<'a, R::Mark>
    ensures { Steps result st.now (has (ValueText (type_name st.now.heap value.now)) links.entry st.now) }
{
    let name = Str::of_bytes(rows.alloc(), type_name(&st.heap, value))?;
    Ok(Move::has(Value::Text(name), links))
}

fn type_unbound<'a, R: CoreRows<'a>>(
    rows: &R,
    exit: Option<u8>,
    links: Links<'a>,
    st: &StateOf<'a, R>,
) -> Moved<'a, R::Mark>
    ensures { Steps result st.now (type_unbound exit links.entry st.now) }
{
    match exit {
        None => {
            let name = Str::of_bytes(rows.alloc(), b"undefined")?;
            Ok(Move::has(Value::Text(name), links))
        }
        Some(number) => leave(st, number),
    }
}

/// `typeof` of a name that may not be bound.
pub(crate) fn type_of<'a, R: CoreRows<'a>>(
    rows: &R,
    var: Var,
    links: Links<'a>,
    st: &mut StateOf<'a, R>,
) -> Moved<'a, R::Mark>
    ensures { Steps result st.new (type_of (R.rows rows.now) var links.entry st.old) }
{
    match value_of(rows, var, st)? {
        None => type_unbound(rows, rows.unbound(var), links, st),
        Some(CoreValue::User(value)) => type_of_value(rows, &value, links, st),
        Some(CoreValue::Extra(_)) => unlawful(st),
    }
}

/// A name that is held there takes the first value, and the second goes on.
fn write_at<'a, R: CoreRows<'a>>(
    rows: &R,
    holder: Holder,
    var: Var,
    value: CoreValue<R::Mark>,
    given: CoreValue<R::Mark>,
    links: Links<'a>,
    st: &mut StateOf<'a, R>,
) -> Moved<'a, R::Mark>
    ensures { Steps result st.new (if_mutable holder.mutable st.old (goes (Current.Has given) links.entry (stored_at holder.number var value st.old))) }
{
    if !holder.mutable {
        return raise(rows.alloc(), ErrorKind::TypeError, st);
    }
    store(rows.alloc(), holder.number, var, value, st);
    Ok(Move::go(Current::Has(given), links))
}

/// A name takes the first value, and the second goes on (8.1.1.1.5).
#[tactic(auto, unfolding(core_meaning::specs::Names::write))]
pub fn write<'a, R: CoreRows<'a>>(
    rows: &R,
    var: Var,
    value: CoreValue<R::Mark>,
    given: CoreValue<R::Mark>,
    links: Links<'a>,
    st: &mut StateOf<'a, R>,
) -> Moved<'a, R::Mark>
    ensures { Steps result st.new (write (R.rows rows.now) var value given links.entry st.old) }
{
    match where_held(st, var) {
        None => not_bound(rows, var, st),
        Some(holder) => write_at(rows, holder, var, value, given, links, st),
    }
}
