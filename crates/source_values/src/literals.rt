//! Values that templates, properties and computed names take (ECMA-262, 6th edition, 12.2.6, 12.2.9).

ghost use Rattle.es_heap.specs.declared.key.Key.TheVariants.{Text};
ghost use Rattle.source_meaning.specs.Frames.{key_texted};
ghost use Rattle.source_meaning.specs.References.{with_text};
ghost use Rattle.source_moves.specs.Moves.{Steps};
ghost use Rattle.source_moves.specs.Seen.{state_of};
ghost use Rattle.source_values.specs.Given.{literal_given};

use crate::pending::ValueWork;
use es_heap::Key;
use es_value::Value;
use source_expressions::{template_texted, template_valued};
use source_moves::{Moved, impossible, value_key};
use source_objects::{member_named, method_named, property_valued, value_named};
use source_patterns::part_named;
use source_state::{Naming, State};
use source_takers::LiteralTaker;
use std::alloc::Global;

/// A computed name has its text.
fn key_texted<'a, W: ValueWork<'a>>(
    alloc: Global,
    key: Key,
    naming: Naming<'a>,
    st: &mut State<'a, W>,
) -> Moved<'a>
    ensures { Steps W.seen result st.new (key_texted key (state_of W.seen st.old) naming.entry) }
{
    match naming {
        Naming::OfValue(object, x, rest) => value_named(object, x, rest, key, st),
        Naming::OfMethod(object, method, rest) => {
            method_named(alloc, object, method.get(), rest, key, st)
        }
        Naming::OfMember(defining, member, members) => {
            member_named(alloc, defining, member.get(), members, key, st)
        }
        Naming::OfPart(binds, value, part, parts) => {
            part_named(alloc, binds, value, part.get(), parts, key, st)
        }
    }
}

/// The value that is the text of a computed name.
fn text_keyed<'a, W: ValueWork<'a>>(
    alloc: Global,
    naming: Naming<'a>,
    value: Value,
    st: &mut State<'a, W>,
) -> Moved<'a>
    ensures { Steps W.seen result st.new (with_text value (state_of W.seen st.old) (λ units. key_texted (Text units) (state_of W.seen st.old) naming.entry)) }
{
    match value {
        Value::Text(text) => key_texted(alloc, Key::Text(text), naming, st),
        _ => impossible(st),
    }
}

/// A value is handed to a template, to a property or to a computed name.
pub(crate) fn literal_given<'a, W: ValueWork<'a>>(
    alloc: Global,
    taker: LiteralTaker<'a>,
    value: Value,
    st: &mut State<'a, W>,
) -> Moved<'a>
    ensures { Steps W.seen result st.new (literal_given taker.entry (state_of W.seen st.old) value) }
{
    match taker {
        LiteralTaker::TemplateValue(text, after, rest) => {
            template_valued(alloc, text, after, rest, value, st)
        }
        LiteralTaker::TemplateText(text, after, rest) => {
            template_texted(alloc, text, after, rest, value, st)
        }
        LiteralTaker::PropertyValue(object, key, rest) => {
            property_valued(alloc, object, key, rest, value, st)
        }
        LiteralTaker::KeyValue(naming) => value_key(alloc, naming, value, st),
        LiteralTaker::KeyText(naming) => text_keyed(alloc, naming, value, st),
    }
}
