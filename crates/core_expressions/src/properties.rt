//! Properties in expressions (ECMA-262, 6th edition, 12.2.5, 12.2.6 and 12.3.2; 5.1 edition, 11.1.4, 11.1.5 and 11.2.1).

ghost use Rattle.std.specs.Prelude.{◌≡◌, ◌∷◌, [], if◌then◌else◌, true};
ghost use Rattle.core_expressions.specs.Objects.{half_defined, half_given, is_extra, object_of};
ghost use Rattle.core_meaning.specs.Expressions.{with_part};
ghost use Rattle.core_meaning.specs.Properties.{accessor, add_element, add_hole, define, defines, element, has_object, hole, index, key_named, key_units, member};
ghost use Rattle.core_meaning.specs.Rows.{goes, operates, raises, with_option};
ghost use Rattle.core_moves.specs.Moves.{Steps};
ghost use Rattle.core_state.specs.declared.frame.Frame.{Frame};
ghost use Rattle.es_heap.specs.declared.prop.Prop.TheVariants.{Plain};
ghost use Rattle.es_operations.specs.Numbers.{to_key_number};
ghost use Rattle.es_operators.specs.Operators.{is_nothing};
ghost use Rattle.es_realm.specs.declared.errors.ErrorKind.TheVariants.{TypeError};

use crate::keys::{key_named, key_units};
use core_ast::Key as WrittenKey;
use core_moves::{
    CoreRows, Move, Moved, StateOf, add_element, add_hole, defined, operate, raise, single_user,
    unlawful, user_at,
};
use core_state::{CoreValue, Current, Frame, Links, Strict};
use es_calls::ErrorKind;
use es_heap::{Key, Prop};
use es_operation_steps::{Operation, with_half};
use es_operators::is_nothing;
use es_realm::define_key;
use es_value::{ObjId, Str, Value};
use sqlite_items::Items;

/// `.k` (12.3.2.1): the base is checked, and a reference made.
pub(crate) fn member<'a, R: CoreRows<'a>>(
    rows: &R,
    key: &WrittenKey,
    strict: Strict<'a, R::Mark>,
    st: &mut StateOf<'a, R>,
) -> Moved<'a, R::Mark>
    ensures { Steps result st.new (member (R.rows rows.now) (key_units key.now) strict.entry st.old) }
{
    match user_at(strict.current) {
        None => unlawful(st),
        Some(base) => member_of(rows, base, key, strict.links, st),
    }
}

fn member_of<'a, R: CoreRows<'a>>(
    rows: &R,
    base: Value,
    key: &WrittenKey,
    links: Links<'a>,
    st: &mut StateOf<'a, R>,
) -> Moved<'a, R::Mark>
    ensures { Steps result st.new (if is_nothing base then raises TypeError st.old else goes ((R.rows rows.now).named base (key_units key.now)) links.entry st.old) }
{
    if is_nothing(&base) {
        return raise(rows.alloc(), ErrorKind::TypeError, st);
    }
    let units = key_units(rows.alloc(), key)?;
    let current = rows.named(base, units)?;
    Ok(Move::go(current, links))
}

/// `[k]`: the base is checked, the key is converted, and a reference made.
pub(crate) fn index<'a, R: CoreRows<'a>>(
    rows: &R,
    strict: Strict<'a, R::Mark>,
    st: &mut StateOf<'a, R>,
) -> Moved<'a, R::Mark>
    ensures { Steps result st.new (index strict.entry st.old) }
{
    let Strict {
        current,
        values,
        links,
        ..
    } = strict;
    match (user_at(current), single_user(values)) {
        (Some(base), Some(key)) => keyed(rows, base, key, links, st),
        _ => unlawful(st),
    }
}

fn keyed<'a, R: CoreRows<'a>>(
    rows: &R,
    base: Value,
    key: Value,
    links: Links<'a>,
    st: &mut StateOf<'a, R>,
) -> Moved<'a, R::Mark>
    ensures { Steps result st.new (operates (Frame.Keyed base links.entry) to_key_number base (key ∷ []) st.old) }
{
    let kept = base.share()?;
    let mut operands = Items::new(rows.alloc());
    operands.push(key)?;
    let frame = Frame::Keyed(kept, links);
    operate(rows.alloc(), frame, Operation::ToKey, base, operands, st)
}

/// The object that an expression is at.
fn object_of<M>(current: &Current<M>) -> Option<ObjId>
    ensures { result ≡ object_of current.now }
{
    match current {
        Current::Has(CoreValue::User(Value::Object(id))) => Some(*id),
        _ => None,
    }
}

/// Whether an expression is at a value that the program doesn't see.
fn is_extra<M>(current: &Current<M>) -> bool
    ensures { result ≡ is_extra current.now }
{
    matches!(current, Current::Has(CoreValue::Extra(_)))
}

fn array_element<'a, R: CoreRows<'a>>(
    rows: &R,
    strict: Strict<'a, R::Mark>,
    st: &mut StateOf<'a, R>,
) -> Moved<'a, R::Mark>
    ensures { Steps result st.new (with_option (object_of strict.entry.current) st.old (λ id. with_part strict.entry st.old (λ v. has_object strict.entry st.old (add_element st.old.heap id v)))) }
{
    let Strict {
        current,
        values,
        links,
        ..
    } = strict;
    match (object_of(&current), single_user(values)) {
        (Some(id), Some(value)) => {
            add_element(rows.alloc(), &mut st.heap, id, value)?;
            Ok(Move::go(current, links))
        }
        _ => unlawful(st),
    }
}

/// An element more (12.2.5.2).
#[tactic(auto, using(crate::proofs::Objects::element_by))]
pub(crate) fn element<'a, R: CoreRows<'a>>(
    rows: &R,
    strict: Strict<'a, R::Mark>,
    st: &mut StateOf<'a, R>,
) -> Moved<'a, R::Mark>
    ensures { Steps result st.new (element (R.rows rows.now) strict.entry st.old strict.entry.current) }
{
    if is_extra(&strict.current) {
        rows.act(strict, st)
    } else {
        array_element(rows, strict, st)
    }
}

fn array_hole<'a, R: CoreRows<'a>>(
    rows: &R,
    strict: Strict<'a, R::Mark>,
    st: &mut StateOf<'a, R>,
) -> Moved<'a, R::Mark>
    ensures { Steps result st.new (with_option (object_of strict.entry.current) st.old (λ id. has_object strict.entry st.old (add_hole st.old.heap id))) }
{
    match object_of(&strict.current) {
        None => unlawful(st),
        Some(id) => {
            add_hole(rows.alloc(), &mut st.heap, id)?;
            Ok(Move::go(strict.current, strict.links))
        }
    }
}

/// A hole more.
#[tactic(auto, using(crate::proofs::Objects::hole_by))]
pub(crate) fn hole<'a, R: CoreRows<'a>>(
    rows: &R,
    strict: Strict<'a, R::Mark>,
    st: &mut StateOf<'a, R>,
) -> Moved<'a, R::Mark>
    ensures { Steps result st.new (hole (R.rows rows.now) strict.entry st.old strict.entry.current) }
{
    if is_extra(&strict.current) {
        rows.act(strict, st)
    } else {
        array_hole(rows, strict, st)
    }
}

/// Defines a property (7.3.7), and goes on with the object.
fn defines<'a, R: CoreRows<'a>>(
    rows: &R,
    object: ObjId,
    key: Key,
    property: Prop,
    current: Current<R::Mark>,
    links: Links<'a>,
    st: &mut StateOf<'a, R>,
) -> Moved<'a, R::Mark>
    ensures { Steps result st.new (defines (R.rows rows.now) object key property current links.entry st.old) }
{
    let alloc = rows.alloc();
    let write = define_key(alloc, rows.edition(), &mut st.heap, object, key, property)?;
    defined(alloc, current, links, write, st)
}

/// A property of the object that is made.
fn define_value<'a, R: CoreRows<'a>>(
    rows: &R,
    object: ObjId,
    units: Str,
    value: Value,
    current: Current<R::Mark>,
    links: Links<'a>,
    st: &mut StateOf<'a, R>,
) -> Moved<'a, R::Mark>
    ensures { Steps result st.new (defines (R.rows rows.now) object (key_named (R.rows rows.now) object units) (Plain value true true) current links.entry st.old) }
{
    let key = key_named(rows, object, units)?;
    let property = Prop::Plain {
        value,
        writable: true,
        configurable: true,
    };
    defines(rows, object, key, property, current, links, st)
}

/// A property more (12.2.6.8).
#[tactic(auto, using(crate::proofs::Objects::object_by))]
pub(crate) fn define<'a, R: CoreRows<'a>>(
    rows: &R,
    key: &WrittenKey,
    strict: Strict<'a, R::Mark>,
    st: &mut StateOf<'a, R>,
) -> Moved<'a, R::Mark>
    ensures { Steps result st.new (define (R.rows rows.now) (key_units key.now) strict.entry st.old) }
{
    let units = key_units(rows.alloc(), key)?;
    let Strict {
        current,
        values,
        links,
        ..
    } = strict;
    match (object_of(&current), single_user(values)) {
        (Some(id), Some(value)) => define_value(rows, id, units, value, current, links, st),
        _ => unlawful(st),
    }
}

/// A half of an accessor of the object that is made.
fn half_defined<'a, R: CoreRows<'a>>(
    rows: &R,
    object: ObjId,
    units: Str,
    is_setter: bool,
    function: ObjId,
    current: Current<R::Mark>,
    links: Links<'a>,
    st: &mut StateOf<'a, R>,
) -> Moved<'a, R::Mark>
    ensures { Steps result st.new (half_defined (R.rows rows.now) object units is_setter function current links.entry st.old) }
{
    let key = key_named(rows, object, units)?;
    let property = with_half(&st.heap, object, &key, function, is_setter);
    defines(rows, object, key, property, current, links, st)
}

/// A value becomes a half of an accessor of the object that is made.
fn half_given<'a, R: CoreRows<'a>>(
    rows: &R,
    object: ObjId,
    units: Str,
    is_setter: bool,
    value: Value,
    current: Current<R::Mark>,
    links: Links<'a>,
    st: &mut StateOf<'a, R>,
) -> Moved<'a, R::Mark>
    ensures { Steps result st.new (half_given (R.rows rows.now) object units is_setter current links.entry st.old value) }
{
    match value {
        Value::Object(function) => {
            half_defined(rows, object, units, is_setter, function, current, links, st)
        }
        _ => unlawful(st),
    }
}

/// A getter or a setter more (12.2.6.8).
#[tactic(auto, using(crate::proofs::Objects::accessor_by))]
pub(crate) fn accessor<'a, R: CoreRows<'a>>(
    rows: &R,
    key: &WrittenKey,
    is_setter: bool,
    strict: Strict<'a, R::Mark>,
    st: &mut StateOf<'a, R>,
) -> Moved<'a, R::Mark>
    ensures { Steps result st.new (accessor (R.rows rows.now) (key_units key.now) is_setter strict.entry st.old) }
{
    let units = key_units(rows.alloc(), key)?;
    let Strict {
        current,
        values,
        links,
        ..
    } = strict;
    match (object_of(&current), single_user(values)) {
        (Some(id), Some(value)) => {
            half_given(rows, id, units, is_setter, value, current, links, st)
        }
        _ => unlawful(st),
    }
}
