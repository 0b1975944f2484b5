//! The keys that name properties (ECMA-262, 6th edition, 12.2.6.8): those that are written, `[Symbol.iterator]` where no scope has the
//! name `Symbol`, and computed ones.

ghost use Rattle.std.specs.Prelude.{◌≡◌, IfOk};
ghost use Rattle.es_heap.specs.declared.key.Key.TheVariants.{Text};
ghost use Rattle.es6_ast.specs.declared.tree.Key.{out-Key};
ghost use Rattle.source_keys.specs.Keys.{bracketed_key, found_key};
ghost use Rattle.source_moves.specs.Seen.{state_of};

use crate::texts::name_units;
use es_heap::Key as PropertyKey;
use es_operators::to_key;
use es_value::{Str, Value};
use es6_ast::{Expression, Key};
use source_moves::{PendingWork, is_iterator_key};
use source_state::{Node, State};
use std::alloc::{AllocError, Global};

/// What names a property: a key that is known, or an expression in brackets that is to be evaluated.
#[derive(Drop)]
pub enum FoundKey<'a> {
    Known(PropertyKey),
    Computed(Node<'a, Expression>),
}

fn bracketed_key<'a, W: PendingWork<'a>>(x: &'a Expression, st: &State<'a, W>) -> FoundKey<'a>
    ensures { result ≡ bracketed_key (state_of W.seen st.now) x.now }
{
    if is_iterator_key(x, st) {
        FoundKey::Known(PropertyKey::Iterator)
    } else {
        FoundKey::Computed(Node::of(x))
    }
}

/// What a key of the tree names. A caller goes on with a known one, and begins a computed one for the work KeyValue.
pub fn found_key<'a, W: PendingWork<'a>>(
    alloc: Global,
    key: &'a Key,
    st: &State<'a, W>,
) -> Result<FoundKey<'a>, AllocError>
    ensures { IfOk result (λ found. found ≡ found_key (state_of W.seen st.now) (out-Key key.now)) }
{
    let found = match key {
        Key::WordKey { name, .. } => known_text(name_units(alloc, name.bytes())?),
        Key::TextKey { units, .. } => known_text(Str::of(alloc, units.units())?),
        Key::IntegerKey { value, .. } => FoundKey::Known(to_key(alloc, &Value::Number(*value))?),
        Key::ComputedKey { value, .. } => bracketed_key(value.get(), st),
    };
    Ok(found)
}

fn known_text<'a>(text: Str) -> FoundKey<'a>
    ensures { result ≡ FoundKey.Known (Text text) }
{
    FoundKey::Known(PropertyKey::Text(text))
}
