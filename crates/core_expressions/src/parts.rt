//! The parts of strict links, from left to right.

ghost use Rattle.std.specs.Prelude.{◌≡◌};
ghost use Rattle.core_meaning.specs.Step.{fetch_given, fetched, part_given, parts};
ghost use Rattle.core_moves.specs.Moves.{Steps};

use crate::strict::act;
use core_ast::CoreOp;
use core_moves::{CoreRows, Moved, StateOf, begin};
use core_state::{CoreValue, Current, Expr, Frame, Strict};
use es_heap::Key;
use es_value::Value;

/// The parts that are left, and then the operation.
pub(crate) fn parts<'a, R: CoreRows<'a>>(
    rows: &R,
    strict: Strict<'a, R::Mark>,
    st: &mut StateOf<'a, R>,
) -> Moved<'a, R::Mark>
    ensures { Steps result st.new (parts (R.rows rows.now) (R.core rows.now) strict.entry st.old) }
{
    match strict.parts.first() {
        None => act(rows, strict, st),
        Some((part, rest)) => {
            let frame = Frame::Part(Strict {
                op: strict.op,
                site: strict.site,
                current: strict.current,
                values: strict.values,
                parts: rest,
                links: strict.links,
            });
            begin(frame, Expr::of(part), st)
        }
    }
}

/// The value of a part is there.
pub fn part_given<'a, R: CoreRows<'a>>(
    rows: &R,
    strict: Strict<'a, R::Mark>,
    value: CoreValue<R::Mark>,
    st: &mut StateOf<'a, R>,
) -> Moved<'a, R::Mark>
    ensures { Steps result st.new (part_given (R.rows rows.now) (R.core rows.now) strict.entry st.old value) }
{
    let mut strict = strict;
    strict.values.push(value)?;
    parts(rows, strict, st)
}

/// What was read of a reference is the method of a call, or the old value.
fn fetched<M: Drop>(base: Value, key: Key, op: &CoreOp, value: Value) -> Current<M>
    ensures { result ≡ fetched base key op.now value }
{
    match op {
        CoreOp::Call => Current::Method(value, base),
        _ => Current::Old(base, key, value),
    }
}

/// The property of a reference was read, before the parts.
pub fn fetch_given<'a, R: CoreRows<'a>>(
    rows: &R,
    base: Value,
    key: Key,
    strict: Strict<'a, R::Mark>,
    value: Value,
    st: &mut StateOf<'a, R>,
) -> Moved<'a, R::Mark>
    ensures { Steps result st.new (fetch_given (R.rows rows.now) (R.core rows.now) base key strict.entry st.old value) }
{
    let mut strict = strict;
    strict.current = fetched(base, key, strict.op.get(), value);
    parts(rows, strict, st)
}
