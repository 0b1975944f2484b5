//! Where a value of a pattern goes: a name is initialized, a reference is written, or a pattern takes it (ECMA-262, 6th edition,
//! 12.14.5, 13.3.3).

ghost use Rattle.std.specs.Prelude.{◌≡◌};
ghost use Rattle.es6_ast.specs.declared.tree.Expression.{out-Expression};
ghost use Rattle.es6_ast.specs.declared.tree.Pattern.{out-Pattern};
ghost use Rattle.source_meaning.specs.Functions.{is_undefined};
ghost use Rattle.source_meaning.specs.Patterns.{initialize_target, put_referred, settled, target_by, target_first, with_default};
ghost use Rattle.source_meaning.specs.References.{put_value};
ghost use Rattle.source_meaning.specs.State.{Ignoring};
ghost use Rattle.source_meaning.specs.Steps.{pushed};
ghost use Rattle.source_moves.specs.Moves.{Steps};
ghost use Rattle.source_moves.specs.Seen.{state_of};

use crate::pending::PatternWork;
use es_calls::ErrorKind;
use es_value::Value;
use es6_ast::{Expression, Pattern};
use source_moves::{Move, Moved, begin, impossible, initialize, push, put_value, raise, refer};
use source_state::{Binds, Completion, Control, Node, Reference, Slot, State};
use std::alloc::Global;

/// An optional node.
pub fn optional<'a, T>(node: &'a Option<T>) -> Option<Node<'a, T>>
    ensures { result ≡ node.now }
{
    match node {
        None => None,
        Some(node) => Some(Node::of(node)),
    }
}

fn initialize_target<'a, W: PatternWork<'a>>(
    alloc: Global,
    value: Value,
    target: &'a Expression,
    st: &mut State<'a, W>,
) -> Moved<'a>
    ensures { Steps W.seen result st.new (initialize_target value (state_of W.seen st.old) (out-Expression target.now)) }
{
    match target {
        Expression::Name { name, .. } => {
            initialize(alloc, name.bytes(), value, st);
            Ok(Move::hand(Completion::Done))
        }
        _ => impossible(st),
    }
}

/// A target that is no pattern takes a value.
pub(crate) fn target_by<'a, W: PatternWork<'a>>(
    alloc: Global,
    target: &'a Expression,
    value: Value,
    binds: Binds,
    st: &mut State<'a, W>,
) -> Moved<'a>
    ensures { Steps W.seen result st.new (target_by target.now value (state_of W.seen st.old) binds) }
{
    match binds {
        Binds::Initializes => initialize_target(alloc, value, target, st),
        Binds::Assigns => {
            push(st, W::ignoring())?;
            refer(W::put_to(value), Node::of(target), st)
        }
    }
}

/// A value is put where a reference names.
pub fn put_referred<'a, W: PatternWork<'a>>(
    alloc: Global,
    value: Value,
    completion: Completion<'a>,
    st: &mut State<'a, W>,
) -> Moved<'a>
    ensures { Steps W.seen result st.new (put_referred value (state_of W.seen st.old) completion.entry) }
{
    match completion {
        Completion::Refers(reference) => {
            let given = value.share()?;
            put_value(alloc, reference, value, given, st)
        }
        _ => raise(alloc, ErrorKind::ReferenceError, st),
    }
}

/// A slot takes a value.
pub fn settled<'a, W: PatternWork<'a>>(
    alloc: Global,
    binds: Binds,
    slot: Slot<'a>,
    value: Value,
    st: &mut State<'a, W>,
) -> Moved<'a>
    ensures { Steps W.seen result st.new (settled binds slot.entry value (state_of W.seen st.old)) }
{
    match slot {
        Slot::InPattern(pattern) => Ok(Move::Goes(Control::Destructure(binds, pattern, value))),
        Slot::AtReference(reference) => put_at(alloc, reference, value, st),
    }
}

fn put_at<'a, W: PatternWork<'a>>(
    alloc: Global,
    reference: Reference<'a>,
    value: Value,
    st: &mut State<'a, W>,
) -> Moved<'a>
    ensures { Steps W.seen result st.new (put_value reference.entry value value (pushed Ignoring (state_of W.seen st.old))) }
{
    let given = value.share()?;
    push(st, W::ignoring())?;
    put_value(alloc, reference, value, given, st)
}

fn is_undefined(value: &Value) -> bool
    ensures { result ≡ is_undefined value.now }
{
    matches!(value, Value::Undefined)
}

/// A slot takes a value, or its default for undefined (13.3.3.6).
pub(crate) fn with_default<'a, W: PatternWork<'a>>(
    alloc: Global,
    binds: Binds,
    slot: Slot<'a>,
    default: Option<Node<'a, Expression>>,
    value: Value,
    st: &mut State<'a, W>,
) -> Moved<'a>
    ensures { Steps W.seen result st.new (with_default binds slot.entry default.entry value (state_of W.seen st.old)) }
{
    match default {
        None => settled(alloc, binds, slot, value, st),
        Some(default) => {
            if is_undefined(&value) {
                begin(W::defaulted(binds, slot), default, st)
            } else {
                settled(alloc, binds, slot, value, st)
            }
        }
    }
}

/// The target that is evaluated before the value is taken: in an assignment one that is no pattern (12.14.5.3, 12.14.5.4).
pub(crate) fn target_first<'a>(binds: Binds, pattern: &'a Pattern) -> Option<Node<'a, Expression>>
    ensures { result ≡ target_first binds (out-Pattern pattern.now) }
{
    match binds {
        Binds::Initializes => None,
        Binds::Assigns => match pattern {
            Pattern::Target(target) => Some(Node::of(target.get())),
            _ => None,
        },
    }
}
