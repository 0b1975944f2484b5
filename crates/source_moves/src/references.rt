//! References (ECMA-262, 6th edition, 6.2.3), and the values of computed keys (12.2.6.8).

ghost use Rattle.std.specs.Prelude.{◌≡◌, ◌∷◌, [], IfOk};
ghost use Rattle.es_operations.specs.Numbers.{get_number, super_get_number};
ghost use Rattle.es_operations.specs.Turning.{key_operand};
ghost use Rattle.source_meaning.specs.References.{by_want, get_value, key_valued, put_value, reads, super_reference};
ghost use Rattle.source_meaning.specs.Steps.{turns};
ghost use Rattle.source_moves.specs.Moves.{Steps};
ghost use Rattle.source_moves.specs.Seen.{state_of};

use crate::assignment::write_name;
use crate::moves::{Move, Moved};
use crate::names::read_name;
use crate::operations::{operate, turn};
use crate::pending::PendingWork;
use crate::states::{impossible, push, raise};
use crate::this::this_of;
use es_calls::ErrorKind;
use es_heap::Key;
use es_operation_steps::{Operation, key_operand};
use es_value::Value;
use source_state::{Naming, Reference, State};
use sqlite_items::Items;
use std::alloc::{AllocError, Global};

fn key_alone(alloc: Global, key: &Key) -> Result<Items<Value>, AllocError>
    ensures { IfOk result (λ operands. operands ≡ key_operand key.now ∷ []) }
{
    let mut operands = Items::new(alloc);
    operands.push(key_operand(key)?)?;
    Ok(operands)
}

fn key_and(alloc: Global, key: &Key, value: Value) -> Result<Items<Value>, AllocError>
    ensures { IfOk result (λ operands. operands ≡ key_operand key.now ∷ value ∷ []) }
{
    let mut operands = key_alone(alloc, key)?;
    operands.push(value)?;
    Ok(operands)
}

fn get_property<'a, W: PendingWork<'a>>(
    alloc: Global,
    base: Value,
    key: &Key,
    st: &State<'a, W>,
) -> Moved<'a>
    ensures { Steps W.seen result st.now (turns get_number base (key_operand key.now ∷ []) (state_of W.seen st.now)) }
{
    let operands = key_alone(alloc, key)?;
    turn(alloc, Operation::Get, base, operands, st)
}

fn get_super<'a, W: PendingWork<'a>>(
    alloc: Global,
    this: Value,
    key: &Key,
    st: &State<'a, W>,
) -> Moved<'a>
    ensures { Steps W.seen result st.now (turns super_get_number this (st.now.context.own.home ∷ key_operand key.now ∷ []) (state_of W.seen st.now)) }
{
    let mut operands = Items::new(alloc);
    operands.push(st.context.own.home.share()?)?;
    operands.push(key_operand(key)?)?;
    turn(alloc, Operation::SuperGet, this, operands, st)
}

/// GetValue (6.2.3.1).
pub fn get_value<'a, W: PendingWork<'a>>(
    alloc: Global,
    reference: Reference<'a>,
    st: &mut State<'a, W>,
) -> Moved<'a>
    ensures { Steps W.seen result st.new (get_value reference.entry (state_of W.seen st.old)) }
{
    match reference {
        Reference::OfName(name) => read_name(alloc, name.bytes(), st),
        Reference::OfProperty(base, key) => get_property(alloc, base, &key, st),
        Reference::OfSuper(this, key) => get_super(alloc, this, &key, st),
    }
}

/// GetValue, whose result goes to this work.
pub fn read<'a, W: PendingWork<'a>>(
    alloc: Global,
    work: W,
    reference: Reference<'a>,
    st: &mut State<'a, W>,
) -> Moved<'a>
    ensures { Steps W.seen result st.new (reads (W.seen work) reference.entry (state_of W.seen st.old)) }
{
    push(st, work)?;
    get_value(alloc, reference, st)
}

/// PutValue (6.2.3.2), with the value that the expression has.
pub fn put_value<'a, W: PendingWork<'a>>(
    alloc: Global,
    reference: Reference<'a>,
    value: Value,
    given: Value,
    st: &mut State<'a, W>,
) -> Moved<'a>
    ensures { Steps W.seen result st.new (put_value reference.entry value given (state_of W.seen st.old)) }
{
    match reference {
        Reference::OfName(name) => write_name(alloc, name.bytes(), value, given, st),
        Reference::OfProperty(base, key) => {
            let operands = key_and(alloc, &key, value)?;
            let work = W::behind(given);
            operate(alloc, work, Operation::Put, base, operands, st)
        }
        Reference::OfSuper(_, _) => impossible(st),
    }
}

/// Hands on a reference where one is wanted, and else its value.
fn by_want<'a, W: PendingWork<'a>>(
    alloc: Global,
    wanted: bool,
    reference: Reference<'a>,
    st: &mut State<'a, W>,
) -> Moved<'a>
    ensures { Steps W.seen result st.new (by_want wanted reference.entry (state_of W.seen st.old)) }
{
    if wanted {
        Ok(Move::refer(reference))
    } else {
        get_value(alloc, reference, st)
    }
}

/// MakeSuperPropertyReference (12.3.5.3): `this` has to be there.
pub fn super_reference<'a, W: PendingWork<'a>>(
    alloc: Global,
    wanted: bool,
    key: Key,
    st: &mut State<'a, W>,
) -> Moved<'a>
    ensures { Steps W.seen result st.new (super_reference wanted key (state_of W.seen st.old)) }
{
    match this_of(st)? {
        None => raise(alloc, ErrorKind::ReferenceError, st),
        Some(this) => by_want(alloc, wanted, Reference::OfSuper(this, key), st),
    }
}

/// The value of a computed name becomes a text (12.2.6.8).
pub fn value_key<'a, W: PendingWork<'a>>(
    alloc: Global,
    naming: Naming<'a>,
    value: Value,
    st: &mut State<'a, W>,
) -> Moved<'a>
    ensures { Steps W.seen result st.new (key_valued naming.entry (state_of W.seen st.old) value) }
{
    let operands = Items::new(alloc);
    let work = W::key_text(naming);
    operate(alloc, work, Operation::ToText, value, operands, st)
}
