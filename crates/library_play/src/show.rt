//! How values are printed.
use es_builtins::ErrorKind;
use es_value::{ObjId, Value};
use std::alloc::{AllocError, Global};

/// A text between quotes. A unit other than a letter, a digit or one of `[] :,.-` is `\u` and four hexadecimal digits.
fn text_shown(alloc: Global, units: &[u16]) -> Result<String, AllocError> {
    let mut shown = String::from_str(alloc, "\"")?;
    for unit in units {
        match u8::try_from(*unit) {
            Ok(byte) if byte.is_ascii_alphanumeric() || b"[] :,.-".contains(&byte) => {
                shown.push(byte as char)?;
            }
            _ => shown.push_str(format!(in alloc; "\\u{unit:04x}")?.as_str())?,
        }
    }
    shown.push('"')?;
    Ok(shown)
}

/// An object by the first slot that holds it, or as an object of the library.
fn object_shown(
    alloc: Global,
    slots: &[Value],
    library: usize,
    id: ObjId,
) -> Result<String, AllocError> {
    let place = id.0;
    if place < library {
        return format!(in alloc; "@{place}");
    }
    for (slot, value) in slots.iter().enumerate() {
        if matches!(value, Value::Object(held) if held.0 == place) {
            return format!(in alloc; "${slot}");
        }
    }
    String::from_str(alloc, "an object")
}

/// A value as a line prints it; `library` is how many objects the realm began with.
pub fn shown(
    alloc: Global,
    slots: &[Value],
    library: usize,
    value: &Value,
) -> Result<String, AllocError> {
    match value {
        Value::Undefined => String::from_str(alloc, "undefined"),
        Value::Null => String::from_str(alloc, "null"),
        Value::Bool(truth) => format!(in alloc; "{truth}"),
        Value::Number(number) => format!(in alloc; "{number}"),
        Value::Text(text) => text_shown(alloc, text.units()),
        Value::Object(id) => object_shown(alloc, slots, library, *id),
    }
}

pub fn kind_name(kind: ErrorKind) -> &'static str {
    match kind {
        ErrorKind::Error => "Error",
        ErrorKind::TypeError => "TypeError",
        ErrorKind::ReferenceError => "ReferenceError",
        ErrorKind::RangeError => "RangeError",
    }
}
