//! References to properties (ECMA-262, 6th edition, 6.2.3; 5.1 edition, 8.7).

ghost use Rattle.std.specs.Prelude.{◌≡◌};
ghost use Rattle.core_meaning.specs.Properties.{delete, put, puts, reads, step_at, update};
ghost use Rattle.core_moves.specs.Moves.{Steps};

use crate::operators::operate_by;
use core_ast::{Binary, Update};
use core_moves::{CoreRows, Moved, StateOf, operate, single_user, unlawful};
use core_state::{CoreValue, Current, Frame, Links, Strict};
use es_heap::Key;
use es_operation_steps::{Operation, key_operand};
use es_value::Value;
use sqlite_items::Items;

/// A reference is read, and what is there goes to the frame (6.2.3.1).
pub(crate) fn reads<'a, R: CoreRows<'a>>(
    rows: &R,
    frame: Frame<'a, R::Mark, R::Work>,
    base: Value,
    key: &Key,
    st: &mut StateOf<'a, R>,
) -> Moved<'a, R::Mark>
    ensures { Steps result st.new (reads frame.entry base key.now st.old) }
{
    let mut operands = Items::new(rows.alloc());
    operands.push(key_operand(key)?)?;
    operate(rows.alloc(), frame, Operation::Get, base, operands, st)
}

/// A value is written to a reference (6.2.3.2), and another one, which is given first, goes on.
pub fn puts<'a, R: CoreRows<'a>>(
    rows: &R,
    given: Value,
    base: Value,
    key: &Key,
    value: Value,
    links: Links<'a>,
    st: &mut StateOf<'a, R>,
) -> Moved<'a, R::Mark>
    ensures { Steps result st.new (puts given base key.now value links.entry st.old) }
{
    let mut operands = Items::new(rows.alloc());
    operands.push(key_operand(key)?)?;
    operands.push(value)?;
    let frame = Frame::Behind(CoreValue::User(given), links);
    operate(rows.alloc(), frame, Operation::Put, base, operands, st)
}

/// Writes the part to the reference.
pub(crate) fn put<'a, R: CoreRows<'a>>(
    rows: &R,
    strict: Strict<'a, R::Mark>,
    st: &mut StateOf<'a, R>,
) -> Moved<'a, R::Mark>
    ensures { Steps result st.new (put strict.entry st.old strict.entry.current) }
{
    let Strict {
        current,
        values,
        links,
        ..
    } = strict;
    match (current, single_user(values)) {
        (Current::Reference(base, key), Some(value)) => {
            let given = value.share()?;
            puts(rows, given, base, &key, value, links, st)
        }
        _ => unlawful(st),
    }
}

/// Deletes the reference (12.5.4; 5.1 edition, 11.4.1).
pub(crate) fn delete<'a, R: CoreRows<'a>>(
    rows: &R,
    strict: Strict<'a, R::Mark>,
    st: &mut StateOf<'a, R>,
) -> Moved<'a, R::Mark>
    ensures { Steps result st.new (delete strict.entry st.old strict.entry.current) }
{
    let Strict { current, links, .. } = strict;
    match current {
        Current::Reference(base, key) => {
            let mut operands = Items::new(rows.alloc());
            operands.push(key_operand(&key)?)?;
            let frame = Frame::After(links);
            operate(rows.alloc(), frame, Operation::Delete, base, operands, st)
        }
        _ => unlawful(st),
    }
}

/// `o.k op= e`: the old value was read before (12.14.4).
pub(crate) fn update<'a, R: CoreRows<'a>>(
    rows: &R,
    binary: Binary,
    strict: Strict<'a, R::Mark>,
    st: &mut StateOf<'a, R>,
) -> Moved<'a, R::Mark>
    ensures { Steps result st.new (update binary strict.entry st.old strict.entry.current) }
{
    let Strict {
        current,
        values,
        links,
        ..
    } = strict;
    match (current, single_user(values)) {
        (Current::Old(base, key, old), Some(value)) => {
            operate_by(rows, Frame::Store(base, key, links), binary, old, value, st)
        }
        _ => unlawful(st),
    }
}

/// `++o.k` and its like: first the old value becomes a number.
pub(crate) fn step_at<'a, R: CoreRows<'a>>(
    rows: &R,
    update: Update,
    strict: Strict<'a, R::Mark>,
    st: &mut StateOf<'a, R>,
) -> Moved<'a, R::Mark>
    ensures { Steps result st.new (step_at update strict.entry st.old strict.entry.current) }
{
    let Strict { current, links, .. } = strict;
    match current {
        Current::Old(base, key, old) => {
            let operands = Items::new(rows.alloc());
            let frame = Frame::StepAt(update, base, key, links);
            operate(rows.alloc(), frame, Operation::ToNumber, old, operands, st)
        }
        _ => unlawful(st),
    }
}
