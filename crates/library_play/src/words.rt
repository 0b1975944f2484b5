//! The words of a line.
ghost use Rattle.std.specs.Prelude.{◌<◌};

use es_heap::Key;
use es_value::{ObjId, Str, Value};
use std::alloc::{AllocError, Global};
use std::str::SplitWhitespace;

/// The units that a word spells, in which `~` and four hexadecimal digits are one.
fn units_of(alloc: Global, word: &str) -> Result<Vec<u16>, AllocError> {
    let mut units = Vec::new(alloc);
    let mut digits_left = 0u8;
    let mut unit = 0u16;
    for byte in word.as_bytes() {
        if digits_left > 0 {
            unit = unit % 4096 * 16 + digit_of(*byte);
            digits_left -= 1;
            if digits_left == 0 {
                units.push(unit)?;
            }
        } else if *byte == b'~' {
            digits_left = 4;
            unit = 0;
        } else {
            units.push(u16::from(*byte))?;
        }
    }
    Ok(units)
}

/// The value of a hexadecimal digit in lower case.
fn digit_of(byte: u8) -> u16
    ensures { result < 16 }
{
    match byte {
        b'0'..=b'9' => u16::from(byte - b'0'),
        b'a'..=b'f' => u16::from(byte - b'a') + 10,
        _ => 0,
    }
}

fn text_of(alloc: Global, word: &str) -> Result<Str, AllocError> {
    let units = units_of(alloc, word)?;
    Str::of_vec(alloc, units)
}

/// The key that a word names.
pub fn key_of(alloc: Global, word: &str) -> Result<Key, AllocError> {
    match word.strip_prefix("'") {
        Some(text) => Ok(Key::Text(text_of(alloc, text)?)),
        None => Ok(Key::Iterator),
    }
}

/// The key that the next word names.
pub fn next_key(alloc: Global, words: &mut SplitWhitespace) -> Result<Key, AllocError> {
    key_of(alloc, words.next().unwrap_or(""))
}

pub fn index_of(word: &str) -> usize {
    word.parse::<usize>().unwrap_or(0)
}

/// A primitive value that a word names, or an object of the library.
fn plain_value(word: &str) -> Value {
    if let Some(number) = word.strip_prefix("#") {
        return Value::Number(number.parse::<i64>().unwrap_or(0));
    }
    if let Some(object) = word.strip_prefix("@") {
        return Value::Object(ObjId(index_of(object)));
    }
    match word {
        "n" => Value::Null,
        "t" => Value::Bool(true),
        "f" => Value::Bool(false),
        _ => Value::Undefined,
    }
}

/// The value that a word names.
pub fn value_of(alloc: Global, slots: &[Value], word: &str) -> Result<Value, AllocError> {
    if let Some(text) = word.strip_prefix("'") {
        return Ok(Value::Text(text_of(alloc, text)?));
    }
    match word.strip_prefix("$") {
        Some(slot) => match slots.get(index_of(slot)) {
            Some(value) => value.share(),
            None => Ok(Value::Undefined),
        },
        None => Ok(plain_value(word)),
    }
}
