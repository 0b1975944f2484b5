//! Values that chains, lists and calls take (ECMA-262, 6th edition, 12.2.5, 12.3).

ghost use Rattle.es_heap.specs.declared.key.Key.TheVariants.{Text};
ghost use Rattle.source_meaning.specs.Frames.{link_keyed};
ghost use Rattle.source_meaning.specs.References.{with_text};
ghost use Rattle.source_meaning.specs.State.{Links};
ghost use Rattle.source_meaning.specs.Steps.{pushed};
ghost use Rattle.source_moves.specs.Moves.{Steps};
ghost use Rattle.source_moves.specs.Seen.{state_of};
ghost use Rattle.source_values.specs.Given.{list_given};

use crate::pending::ValueWork;
use es_heap::Key;
use es_value::Value;
use es6_ast::Link;
use source_lists::{
    indexed, list_on, list_valued, passes, spread_part, spread_step, spread_stepped, spread_valued,
};
use source_moves::{Move, Moved, impossible, push};
use source_state::{Callee, Collected, ListParts, Nodes, Reference, State, Use};
use source_takers::ListTaker;
use sqlite_items::Items;
use std::alloc::Global;

/// The text of a key in brackets.
fn key_linked<'a, W: ValueWork<'a>>(
    base: Value,
    wanted: bool,
    links: Nodes<'a, Link>,
    key: Value,
    st: &mut State<'a, W>,
) -> Moved<'a>
    ensures { Steps W.seen result st.new (with_text key (state_of W.seen st.old) (λ units. link_keyed base (Text units) (pushed (Links wanted links.entry) (state_of W.seen st.old)))) }
{
    match key {
        Value::Text(text) => {
            push(st, W::links(wanted, links))?;
            Ok(Move::refer(Reference::OfProperty(base, Key::Text(text))))
        }
        _ => impossible(st),
    }
}

/// A value is handed to a part of a chain or a list.
pub(crate) fn list_given<'a, W: ValueWork<'a>>(
    alloc: Global,
    taker: ListTaker<'a>,
    value: Value,
    st: &mut State<'a, W>,
) -> Moved<'a>
    ensures { Steps W.seen result st.new (list_given taker.entry (state_of W.seen st.old) value) }
{
    match taker {
        ListTaker::LinkIndex(base, wanted, links) => indexed(alloc, base, wanted, links, value, st),
        ListTaker::LinkKey(base, wanted, links) => key_linked(base, wanted, links, value, st),
        ListTaker::LinkMethod(receiver, passing, wanted, links) => {
            let callee = Callee::Calling(value, receiver);
            passes(alloc, callee, passing, wanted, links, st)
        }
        ListTaker::ListValue(listing) => list_valued(alloc, listing, value, st),
        ListTaker::SpreadPart(listing) => spread_part(alloc, listing, value, st),
        ListTaker::SpreadIterator(listing) => spread_step(alloc, listing, value, st),
        ListTaker::SpreadStep(listing, iterator) => {
            spread_stepped(alloc, listing, iterator, value, st)
        }
        ListTaker::SpreadValue(listing, iterator) => {
            spread_valued(alloc, listing, iterator, value, st)
        }
        ListTaker::NewCallee(arguments) => {
            let list = Collected::OfArguments(Use::ForNew(value), Items::new(alloc));
            list_on(alloc, list, ListParts::of_arguments(arguments), st)
        }
    }
}
