//! Rests of array patterns, which take the values that are left in an array (ECMA-262, 6th edition, 12.14.5.3, 13.3.3.6).

ghost use Rattle.std.specs.Prelude.{◌≡◌};
ghost use Rattle.es6_ast.specs.declared.tree.Pattern.{out-Pattern};
ghost use Rattle.source_meaning.specs.Patterns.{rest_made, rest_of, rest_on, rest_referred, rest_stepped, rest_valued, take_rest, target_first};
ghost use Rattle.source_moves.specs.Moves.{Steps};
ghost use Rattle.source_moves.specs.Seen.{state_of};

use crate::iteration::{iterator_step, operate_alone};
use crate::pending::PatternWork;
use crate::targets::{settled, target_first};
use es_calls::ErrorKind;
use es_heap::Class;
use es_operation_steps::Operation;
use es_realm::names::ARRAY_PROTOTYPE;
use es_value::{ObjId, Value};
use es6_ast::Pattern;
use source_keys::add_element;
use source_moves::{Moved, push, raise, refer};
use source_state::{Completion, Node, Slot, State, Taking};
use std::alloc::Global;

/// The array is whole.
fn rest_made<'a, W: PatternWork<'a>>(
    alloc: Global,
    slot: Slot<'a>,
    array: ObjId,
    taking: Taking<'a>,
    st: &mut State<'a, W>,
) -> Moved<'a>
    ensures { Steps W.seen result st.new (rest_made slot.entry array taking.entry (state_of W.seen st.old)) }
{
    let binds = taking.binds;
    push(st, W::elements_rest(true, taking))?;
    settled(alloc, binds, slot, Value::Object(array), st)
}

fn rest_on<'a, W: PatternWork<'a>>(
    alloc: Global,
    done: bool,
    slot: Slot<'a>,
    array: ObjId,
    taking: Taking<'a>,
    st: &mut State<'a, W>,
) -> Moved<'a>
    ensures { Steps W.seen result st.new (rest_on done slot.entry array taking.entry (state_of W.seen st.old)) }
{
    if done {
        return rest_made(alloc, slot, array, taking, st);
    }
    let iterator = taking.iterator.share()?;
    iterator_step(alloc, W::rest_step(slot, array, taking), iterator, st)
}

fn take_rest<'a, W: PatternWork<'a>>(
    alloc: Global,
    done: bool,
    slot: Slot<'a>,
    taking: Taking<'a>,
    st: &mut State<'a, W>,
) -> Moved<'a>
    ensures { Steps W.seen result st.new (take_rest done slot.entry taking.entry (state_of W.seen st.old)) }
{
    let array = st.heap.make(alloc, Some(ARRAY_PROTOTYPE), Class::Array)?;
    rest_on(alloc, done, slot, array, taking, st)
}

/// A rest: in an assignment a target that is no pattern comes first.
pub(crate) fn rest_of<'a, W: PatternWork<'a>>(
    alloc: Global,
    done: bool,
    taking: Taking<'a>,
    pattern: &'a Pattern,
    st: &mut State<'a, W>,
) -> Moved<'a>
    ensures { Steps W.seen result st.new (rest_of done pattern.now taking.entry (state_of W.seen st.old) (target_first taking.entry.binds (out-Pattern pattern.now))) }
{
    match target_first(taking.binds, pattern) {
        None => take_rest(alloc, done, Slot::InPattern(Node::of(pattern)), taking, st),
        Some(target) => refer(W::rest_target(done, taking), target, st),
    }
}

/// The target of a rest is there.
pub fn rest_referred<'a, W: PatternWork<'a>>(
    alloc: Global,
    done: bool,
    taking: Taking<'a>,
    completion: Completion<'a>,
    st: &mut State<'a, W>,
) -> Moved<'a>
    ensures { Steps W.seen result st.new (rest_referred done taking.entry (state_of W.seen st.old) completion.entry) }
{
    match completion {
        Completion::Refers(reference) => {
            take_rest(alloc, done, Slot::AtReference(reference), taking, st)
        }
        _ => raise(alloc, ErrorKind::ReferenceError, st),
    }
}

/// A step for a rest gave a result, or false at the end.
pub fn rest_stepped<'a, W: PatternWork<'a>>(
    alloc: Global,
    slot: Slot<'a>,
    array: ObjId,
    taking: Taking<'a>,
    value: Value,
    st: &mut State<'a, W>,
) -> Moved<'a>
    ensures { Steps W.seen result st.new (rest_stepped slot.entry array taking.entry (state_of W.seen st.old) value) }
{
    match value {
        Value::Object(result) => {
            let work = W::rest_value(slot, array, taking);
            operate_alone(
                alloc,
                work,
                Operation::IteratorValue,
                Value::Object(result),
                st,
            )
        }
        _ => rest_made(alloc, slot, array, taking, st),
    }
}

/// A value of a rest is there.
pub fn rest_valued<'a, W: PatternWork<'a>>(
    alloc: Global,
    slot: Slot<'a>,
    array: ObjId,
    taking: Taking<'a>,
    value: Value,
    st: &mut State<'a, W>,
) -> Moved<'a>
    ensures { Steps W.seen result st.new (rest_valued slot.entry array taking.entry (state_of W.seen st.old) value) }
{
    add_element(alloc, &mut st.heap, array, value)?;
    rest_on(alloc, false, slot, array, taking, st)
}
