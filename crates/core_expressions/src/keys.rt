//! The keys that are written (ECMA-262, 6th edition, 12.2.6.8 and 12.3.2.1).

ghost use Rattle.std.specs.Prelude.{◌≡◌, IfOk};
ghost use Rattle.std.specs.Fmt.{decimal};
ghost use Rattle.core_meaning.specs.Properties.{key_in, key_named, key_units};

use crate::texts::text_of;
use core_ast::Key as WrittenKey;
use core_moves::CoreRows;
use core_state::Current;
use es_heap::Key;
use es_value::{ObjId, Str, Value};
use std::alloc::{AllocError, Global};

/// The text of a key.
pub(crate) fn key_units(alloc: Global, key: &WrittenKey) -> Result<Str, AllocError>
    ensures { IfOk result (λ units. units ≡ key_units key.now) }
{
    match key {
        WrittenKey::WordKey(word) => text_of(alloc, word.bytes()),
        WrittenKey::TextKey(units) => Str::of(alloc, units.units()),
        WrittenKey::IntegerKey(number) => decimal_text(alloc, *number),
    }
}

/// The digits of a number.
fn decimal_text(alloc: Global, number: u64) -> Result<Str, AllocError>
    ensures { IfOk result (λ text. text ≡ decimal number) }
{
    let digits = format!(in alloc; "{number}")?;
    Str::of_bytes(alloc, digits.as_bytes())
}

fn key_in<M: Drop>(units: Str, current: Current<M>) -> Key
    ensures { result ≡ key_in units current }
{
    match current {
        Current::Reference(_, key) => key,
        _ => Key::Text(units),
    }
}

/// The key of a property of this object that has this text.
pub(crate) fn key_named<'a, R: CoreRows<'a>>(
    rows: &R,
    object: ObjId,
    units: Str,
) -> Result<Key, AllocError>
    ensures { IfOk result (λ key. key ≡ key_named (R.rows rows.now) object units) }
{
    let current = rows.named(Value::Object(object), units.share()?)?;
    Ok(key_in(units, current))
}
