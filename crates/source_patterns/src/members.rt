//! Object patterns (ECMA-262, 6th edition, 12.14.5.2 to 12.14.5.4, 13.3.3.7).

ghost use Rattle.std.specs.Prelude.{◌≡◌, [], IfOk};
ghost use Rattle.es_heap.specs.declared.key.Key.TheVariants.{Text};
ghost use Rattle.es6_ast.specs.declared.tree.Expression.{out-Expression};
ghost use Rattle.es6_ast.specs.declared.tree.ObjectPart.{out-ObjectPart};
ghost use Rattle.es6_ast.specs.declared.tree.Pattern.{out-Pattern};
ghost use Rattle.source_meaning.specs.Patterns.{member_referred, member_valued, members_on, name_key, one_member, part_named, shorthand_key, take_member};
ghost use Rattle.source_meaning.specs.References.{with_key};
ghost use Rattle.source_meaning.specs.State.{OfPart};
ghost use Rattle.source_moves.specs.Moves.{Steps};
ghost use Rattle.source_moves.specs.Seen.{state_of};

use crate::pending::PatternWork;
use crate::targets::{optional, target_first, with_default};
use es_calls::ErrorKind;
use es_heap::Key;
use es_value::{Str, Value};
use es6_ast::{Expression, Key as WrittenKey, ObjectPart, Part, Pattern};
use source_keys::{FoundKey, found_key, name_units};
use source_moves::{Move, Moved, begin, push, raise, read, refer};
use source_state::{Binds, Completion, Naming, Node, Nodes, Reference, Slot, State};
use std::alloc::{AllocError, Global};

/// A slot takes the value of a property.
fn take_member<'a, W: PatternWork<'a>>(
    alloc: Global,
    binds: Binds,
    value: Value,
    key: Key,
    slot: Slot<'a>,
    default: Option<Node<'a, Expression>>,
    parts: Nodes<'a, ObjectPart>,
    st: &mut State<'a, W>,
) -> Moved<'a>
    ensures { Steps W.seen result st.new (take_member binds value key slot.entry default.entry parts.entry (state_of W.seen st.old)) }
{
    let work = W::member_value(binds, value.share()?, slot, default, parts);
    read(alloc, work, Reference::OfProperty(value, key), st)
}

/// A part whose key is known: in an assignment a target that is no pattern comes first.
pub fn part_named<'a, W: PatternWork<'a>>(
    alloc: Global,
    binds: Binds,
    value: Value,
    part: &'a Part,
    parts: Nodes<'a, ObjectPart>,
    key: Key,
    st: &mut State<'a, W>,
) -> Moved<'a>
    ensures { Steps W.seen result st.new (part_named binds value part.now parts.entry key (state_of W.seen st.old)) }
{
    let default = optional(&part.default);
    match target_first(binds, &part.pattern) {
        None => {
            let slot = Slot::InPattern(Node::of(&part.pattern));
            take_member(alloc, binds, value, key, slot, default, parts, st)
        }
        Some(target) => refer(W::member_target(value, key, default, parts), target, st),
    }
}

/// The target of a part is there.
pub fn member_referred<'a, W: PatternWork<'a>>(
    alloc: Global,
    value: Value,
    key: Key,
    default: Option<Node<'a, Expression>>,
    parts: Nodes<'a, ObjectPart>,
    completion: Completion<'a>,
    st: &mut State<'a, W>,
) -> Moved<'a>
    ensures { Steps W.seen result st.new (member_referred value key default.entry parts.entry (state_of W.seen st.old) completion.entry) }
{
    match completion {
        Completion::Refers(reference) => {
            let slot = Slot::AtReference(reference);
            take_member(alloc, Binds::Assigns, value, key, slot, default, parts, st)
        }
        _ => raise(alloc, ErrorKind::ReferenceError, st),
    }
}

/// The value of a property is there.
pub fn member_valued<'a, W: PatternWork<'a>>(
    alloc: Global,
    binds: Binds,
    value: Value,
    slot: Slot<'a>,
    default: Option<Node<'a, Expression>>,
    parts: Nodes<'a, ObjectPart>,
    given: Value,
    st: &mut State<'a, W>,
) -> Moved<'a>
    ensures { Steps W.seen result st.new (member_valued binds value slot.entry default.entry parts.entry (state_of W.seen st.old) given) }
{
    push(st, W::members_rest(binds, value, parts))?;
    with_default(alloc, binds, slot, default, given, st)
}

/// The text of no name.
fn empty_key(alloc: Global) -> Result<Key, AllocError>
    ensures { IfOk result (λ key. key ≡ Text []) }
{
    Ok(Key::Text(Str::of_vec(alloc, Vec::new(alloc))?))
}

fn shorthand_key(alloc: Global, target: &Expression) -> Result<Key, AllocError>
    ensures { IfOk result (λ key. key ≡ shorthand_key (out-Expression target.now)) }
{
    match target {
        Expression::Name { name, .. } => Ok(Key::Text(name_units(alloc, name.bytes())?)),
        _ => empty_key(alloc),
    }
}

/// A name alone is the key too.
fn name_key(alloc: Global, pattern: &Pattern) -> Result<Key, AllocError>
    ensures { IfOk result (λ key. key ≡ name_key (out-Pattern pattern.now)) }
{
    match pattern {
        Pattern::Target(target) => shorthand_key(alloc, target.get()),
        _ => empty_key(alloc),
    }
}

/// A part with a key: a computed one is evaluated first.
#[tactic(auto, using(source_keys::proofs::FoundKeys::with_known, source_keys::proofs::FoundKeys::with_computed))]
fn keyed_member<'a, W: PatternWork<'a>>(
    alloc: Global,
    binds: Binds,
    value: Value,
    parts: Nodes<'a, ObjectPart>,
    key: &'a WrittenKey,
    part: &'a Part,
    st: &mut State<'a, W>,
) -> Moved<'a>
    ensures { Steps W.seen result st.new (with_key key.now (OfPart binds value part.now parts.entry) (state_of W.seen st.old) (part_named binds value part.now parts.entry)) }
{
    match found_key(alloc, key, st)? {
        FoundKey::Known(key) => part_named(alloc, binds, value, part, parts, key, st),
        FoundKey::Computed(x) => {
            let naming = Naming::OfPart(binds, value, Node::of(part), parts);
            begin(W::key_value(naming), x, st)
        }
    }
}

fn one_member<'a, W: PatternWork<'a>>(
    alloc: Global,
    binds: Binds,
    value: Value,
    parts: Nodes<'a, ObjectPart>,
    part: &'a ObjectPart,
    st: &mut State<'a, W>,
) -> Moved<'a>
    ensures { Steps W.seen result st.new (one_member binds value parts.entry (state_of W.seen st.old) (out-ObjectPart part.now)) }
{
    match part {
        ObjectPart::NamedPart(part) => {
            let key = name_key(alloc, &part.pattern)?;
            part_named(alloc, binds, value, part, parts, key, st)
        }
        ObjectPart::KeyedPart { key, part, .. } => {
            keyed_member(alloc, binds, value, parts, key, part, st)
        }
    }
}

/// The parts that are left.
pub fn members_on<'a, W: PatternWork<'a>>(
    alloc: Global,
    binds: Binds,
    value: Value,
    parts: Nodes<'a, ObjectPart>,
    st: &mut State<'a, W>,
) -> Moved<'a>
    ensures { Steps W.seen result st.new (members_on binds value parts.entry (state_of W.seen st.old)) }
{
    match parts.first() {
        None => Ok(Move::hand(Completion::Done)),
        Some((part, parts)) => one_member(alloc, binds, value, parts, part, st),
    }
}
