//! Array patterns (ECMA-262, 6th edition, 12.14.5.3, 13.3.3.5, 13.3.3.6). A step that fails marks the iterator as done.

ghost use Rattle.std.specs.Prelude.{◌≡◌, ◌∷◌, [], MatchOption};
ghost use Rattle.es6_ast.specs.declared.tree.ArrayPart.{out-ArrayPart};
ghost use Rattle.source_meaning.specs.Patterns.{element_referred, element_stepped, element_valued, elements_on, elements_rest, is_last, iterator_step, skipped, take_element, with_default};
ghost use Rattle.source_meaning.specs.State.{ElementsRest, SkipStep};
ghost use Rattle.source_meaning.specs.Steps.{pushed};
ghost use Rattle.source_moves.specs.Moves.{Steps};
ghost use Rattle.source_moves.specs.Seen.{state_of};
ghost use Rattle.source_patterns.specs.ArrayParts.{is_skipped, part_begun, parts_from, single_part};

use crate::closing::closes_unless;
use crate::iteration::{iterator_step, operate_alone};
use crate::pending::PatternWork;
use crate::rests::rest_of;
use crate::targets::{optional, target_first, with_default};
use es_calls::ErrorKind;
use es_operation_steps::Operation;
use es_value::Value;
use es6_ast::{ArrayPart, Expression, Part};
use source_moves::{Moved, push, raise, refer};
use source_state::{Binds, Completion, Node, Nodes, Slot, State, Taking};
use std::alloc::Global;

/// A slot takes a value of the iterator, or its default; behind that the parts follow.
fn element_given<'a, W: PatternWork<'a>>(
    alloc: Global,
    done: bool,
    slot: Slot<'a>,
    default: Option<Node<'a, Expression>>,
    value: Value,
    taking: Taking<'a>,
    st: &mut State<'a, W>,
) -> Moved<'a>
    ensures { Steps W.seen result st.new (with_default taking.entry.binds slot.entry default.entry value (pushed (ElementsRest done taking.entry) (state_of W.seen st.old))) }
{
    let binds = taking.binds;
    push(st, W::elements_rest(done, taking))?;
    with_default(alloc, binds, slot, default, value, st)
}

/// A slot takes the next value: where the iterator is done, undefined.
fn take_element<'a, W: PatternWork<'a>>(
    alloc: Global,
    done: bool,
    slot: Slot<'a>,
    default: Option<Node<'a, Expression>>,
    taking: Taking<'a>,
    st: &mut State<'a, W>,
) -> Moved<'a>
    ensures { Steps W.seen result st.new (take_element done slot.entry default.entry taking.entry (state_of W.seen st.old)) }
{
    if done {
        return element_given(alloc, true, slot, default, Value::Undefined, taking, st);
    }
    let iterator = taking.iterator.share()?;
    iterator_step(alloc, W::element_step(slot, default, taking), iterator, st)
}

/// A part with a target: in an assignment one that is no pattern comes first.
fn single_part<'a, W: PatternWork<'a>>(
    alloc: Global,
    done: bool,
    taking: Taking<'a>,
    part: &'a Part,
    st: &mut State<'a, W>,
) -> Moved<'a>
    ensures { Steps W.seen result st.new (single_part done taking.entry (state_of W.seen st.old) part.now) }
{
    let pattern = Node::of(&part.pattern);
    let default = optional(&part.default);
    match target_first(taking.binds, &part.pattern) {
        None => take_element(alloc, done, Slot::InPattern(pattern), default, taking, st),
        Some(target) => refer(
            W::element_target(done, pattern, default, taking),
            target,
            st,
        ),
    }
}

/// The target of a part is there.
pub fn element_referred<'a, W: PatternWork<'a>>(
    alloc: Global,
    done: bool,
    default: Option<Node<'a, Expression>>,
    taking: Taking<'a>,
    completion: Completion<'a>,
    st: &mut State<'a, W>,
) -> Moved<'a>
    ensures { Steps W.seen result st.new (element_referred done default.entry taking.entry (state_of W.seen st.old) completion.entry) }
{
    match completion {
        Completion::Refers(reference) => {
            take_element(
                alloc,
                done,
                Slot::AtReference(reference),
                default,
                taking,
                st,
            )
        }
        _ => raise(alloc, ErrorKind::ReferenceError, st),
    }
}

/// The step of a part gave a result, or false at the end.
pub fn element_stepped<'a, W: PatternWork<'a>>(
    alloc: Global,
    slot: Slot<'a>,
    default: Option<Node<'a, Expression>>,
    taking: Taking<'a>,
    value: Value,
    st: &mut State<'a, W>,
) -> Moved<'a>
    ensures { Steps W.seen result st.new (element_stepped slot.entry default.entry taking.entry (state_of W.seen st.old) value) }
{
    match value {
        Value::Object(result) => {
            let work = W::element_value(slot, default, taking);
            operate_alone(
                alloc,
                work,
                Operation::IteratorValue,
                Value::Object(result),
                st,
            )
        }
        _ => take_element(alloc, true, slot, default, taking, st),
    }
}

/// The value of a part is there.
pub fn element_valued<'a, W: PatternWork<'a>>(
    alloc: Global,
    slot: Slot<'a>,
    default: Option<Node<'a, Expression>>,
    taking: Taking<'a>,
    value: Value,
    st: &mut State<'a, W>,
) -> Moved<'a>
    ensures { Steps W.seen result st.new (element_valued slot.entry default.entry taking.entry (state_of W.seen st.old) value) }
{
    element_given(alloc, false, slot, default, value, taking, st)
}

/// A part without a target takes a step alone.
fn skip<'a, W: PatternWork<'a>>(
    alloc: Global,
    taking: Taking<'a>,
    st: &mut State<'a, W>,
) -> Moved<'a>
    ensures { Steps W.seen result st.new (iterator_step (SkipStep taking.entry) taking.entry.iterator (state_of W.seen st.old)) }
{
    let iterator = taking.iterator.share()?;
    iterator_step(alloc, W::skip_step(taking), iterator, st)
}

fn part_begun<'a, W: PatternWork<'a>>(
    alloc: Global,
    done: bool,
    taking: Taking<'a>,
    part: &'a ArrayPart,
    st: &mut State<'a, W>,
) -> Moved<'a>
    ensures { Steps W.seen result st.new (part_begun done taking.entry (state_of W.seen st.old) (out-ArrayPart part.now)) }
{
    match part {
        ArrayPart::SkippedPart => skip(alloc, taking, st),
        ArrayPart::SinglePart(part) => single_part(alloc, done, taking, part, st),
        ArrayPart::RestPart { pattern, .. } => rest_of(alloc, done, taking, pattern, st),
    }
}

fn is_skipped(part: &ArrayPart) -> bool
    ensures { result ≡ is_skipped (out-ArrayPart part.now) }
{
    matches!(part, ArrayPart::SkippedPart)
}

/// The first part that asks for something, and what is left behind it.
fn next_part<'a>(
    done: bool,
    parts: Nodes<'a, ArrayPart>,
) -> Option<(&'a ArrayPart, Nodes<'a, ArrayPart>)>
    ensures { MatchOption result (parts_from done parts.entry ≡ []) (λ p. parts_from done parts.entry ≡ p.0.now ∷ p.1) }
{
    let mut rest = parts;
    while let Some((part, parts)) = rest.first() {
        let passed = done && is_skipped(part);
        if !passed {
            return Some((part, parts));
        }
        rest = parts;
    }
    None
}

/// The parts that are left; at the end an iterator that isn't done is closed.
#[tactic(auto, using(crate::proofs::ArrayParts::elements_none, crate::proofs::ArrayParts::elements_some))]
pub fn elements_on<'a, W: PatternWork<'a>>(
    alloc: Global,
    binds: Binds,
    iterator: Value,
    parts: Nodes<'a, ArrayPart>,
    done: bool,
    st: &mut State<'a, W>,
) -> Moved<'a>
    ensures { Steps W.seen result st.new (elements_on binds iterator parts.entry done (state_of W.seen st.old)) }
{
    match next_part(done, parts) {
        None => closes_unless(alloc, done, iterator, Completion::Done, st),
        Some((part, parts)) => {
            let taking = Taking {
                binds,
                iterator,
                parts,
            };
            part_begun(alloc, done, taking, part, st)
        }
    }
}

pub fn elements_rest<'a, W: PatternWork<'a>>(
    alloc: Global,
    done: bool,
    taking: Taking<'a>,
    st: &mut State<'a, W>,
) -> Moved<'a>
    ensures { Steps W.seen result st.new (elements_rest done taking.entry (state_of W.seen st.old)) }
{
    elements_on(alloc, taking.binds, taking.iterator, taking.parts, done, st)
}

/// Whether a step gave the end.
fn is_last(value: &Value) -> bool
    ensures { result ≡ is_last value.now }
{
    !matches!(value, Value::Object(_))
}

/// The step of a part without a target gave this.
pub fn skipped<'a, W: PatternWork<'a>>(
    alloc: Global,
    taking: Taking<'a>,
    value: &Value,
    st: &mut State<'a, W>,
) -> Moved<'a>
    ensures { Steps W.seen result st.new (skipped taking.entry (state_of W.seen st.old) value.now) }
{
    elements_rest(alloc, is_last(value), taking, st)
}
