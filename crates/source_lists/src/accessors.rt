//! Property accessors in chains (ECMA-262, 6th edition, 12.3.2.1): the base is checked, behind the expression in brackets.

ghost use Rattle.std.specs.Prelude.{◌≡◌, if◌then◌else◌};
ghost use Rattle.es_operators.specs.Operators.{is_nothing};
ghost use Rattle.es_realm.specs.declared.errors.ErrorKind.TheVariants.{TypeError};
ghost use Rattle.source_meaning.specs.Lists.{index_link, indexed, iterator_link, member_link};
ghost use Rattle.source_meaning.specs.Steps.{pushed, raises, refers_to};
ghost use Rattle.source_meaning.specs.Trees.{name_units};
ghost use Rattle.source_moves.specs.Moves.{Steps};
ghost use Rattle.source_moves.specs.Seen.{state_of};
ghost use Rattle.source_state.specs.declared.completion.Reference.{Reference};
ghost use Rattle.source_state.specs.declared.work.Work.TheVariants.{Links};

use crate::pending::ListWork;
use es_calls::ErrorKind;
use es_heap::Key;
use es_operation_steps::Operation;
use es_operators::is_nothing;
use es_value::Value;
use es6_ast::{Expression, Link};
use source_keys::name_units;
use source_moves::{Move, Moved, begin, is_iterator_key, operate, push, raise};
use source_state::{Node, Nodes, Reference, State};
use sqlite_items::Items;
use std::alloc::Global;

/// A reference to a property, if the base can have one.
fn refer_to<'a, W: ListWork<'a>>(
    alloc: Global,
    base: Value,
    key: Key,
    wanted: bool,
    links: Nodes<'a, Link>,
    st: &mut State<'a, W>,
) -> Moved<'a>
    ensures { Steps W.seen result st.new (if is_nothing base then raises TypeError (state_of W.seen st.old) else refers_to (Reference.OfProperty base key) (pushed (Links wanted links.entry) (state_of W.seen st.old))) }
{
    if is_nothing(&base) {
        return raise(alloc, ErrorKind::TypeError, st);
    }
    push(st, W::links(wanted, links))?;
    Ok(Move::refer(Reference::OfProperty(base, key)))
}

/// `.k` at a value.
pub(crate) fn member_link<'a, W: ListWork<'a>>(
    alloc: Global,
    name: &[u8],
    wanted: bool,
    links: Nodes<'a, Link>,
    base: Value,
    st: &mut State<'a, W>,
) -> Moved<'a>
    ensures { Steps W.seen result st.new (member_link (name_units name.now) wanted links.entry (state_of W.seen st.old) base) }
{
    let units = name_units(alloc, name)?;
    refer_to(alloc, base, Key::Text(units), wanted, links, st)
}

/// `[Symbol.iterator]` at a value.
fn iterator_link<'a, W: ListWork<'a>>(
    alloc: Global,
    wanted: bool,
    links: Nodes<'a, Link>,
    base: Value,
    st: &mut State<'a, W>,
) -> Moved<'a>
    ensures { Steps W.seen result st.new (iterator_link wanted links.entry (state_of W.seen st.old) base) }
{
    refer_to(alloc, base, Key::Iterator, wanted, links, st)
}

/// `[k]` at a value.
pub(crate) fn index_link<'a, W: ListWork<'a>>(
    alloc: Global,
    x: &'a Expression,
    wanted: bool,
    links: Nodes<'a, Link>,
    base: Value,
    st: &mut State<'a, W>,
) -> Moved<'a>
    ensures { Steps W.seen result st.new (index_link x.now wanted links.entry (state_of W.seen st.old) base) }
{
    if is_iterator_key(x, st) {
        iterator_link(alloc, wanted, links, base, st)
    } else {
        begin(W::link_index(base, wanted, links), Node::of(x), st)
    }
}

/// The value in the brackets is there: the base is checked, and the key converted.
pub fn indexed<'a, W: ListWork<'a>>(
    alloc: Global,
    base: Value,
    wanted: bool,
    links: Nodes<'a, Link>,
    key: Value,
    st: &mut State<'a, W>,
) -> Moved<'a>
    ensures { Steps W.seen result st.new (indexed base wanted links.entry (state_of W.seen st.old) key) }
{
    let kept = base.share()?;
    let mut operands = Items::new(alloc);
    operands.push(key)?;
    let work = W::link_key(kept, wanted, links);
    operate(alloc, work, Operation::ToKey, base, operands, st)
}
