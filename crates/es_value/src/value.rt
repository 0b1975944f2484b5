//! The values of the language.
ghost use Rattle.std.specs.Prelude.{◌≡◌, IfOk, IsTrue, ◌↔◌};
ghost use Rattle.es_value.specs.Equality.{same_value};

use crate::text::Str;
use std::alloc::AllocError;

/// The name of an object: its number in the heap that made it, from 0.
#[derive(Clone, Copy, Debug, PartialEq, Eq)]
pub struct ObjId(pub usize);

/// A value of the language (ECMA-262, 6th edition, 6.1).
#[derive(Debug, Drop)]
pub enum Value {
    Undefined,
    Null,
    Bool(bool),
    Number(i64),
    Text(Str),
    Object(ObjId),
}

impl Value {
    /// An equal value, which shares the text.
    pub fn share(&self) -> Result<Value, AllocError>
        ensures { IfOk result (λ value. value ≡ self.now) }
    {
        let value = match self {
            Value::Undefined => Value::Undefined,
            Value::Null => Value::Null,
            Value::Bool(truth) => Value::Bool(*truth),
            Value::Number(number) => Value::Number(*number),
            Value::Text(text) => Value::Text(text.share()?),
            Value::Object(id) => Value::Object(*id),
        };
        Ok(value)
    }
}

/// Whether the values are strictly equal (7.2.13). No number of this profile is NaN or -0, so these are the equal values.
pub fn same(a: &Value, b: &Value) -> bool
    ensures value { result ≡ same_value a.now b.now }
    ensures equal { IsTrue result ↔ (a.now ≡ b.now) }
{
    match (a, b) {
        (Value::Undefined, Value::Undefined) => true,
        (Value::Null, Value::Null) => true,
        (Value::Bool(x), Value::Bool(y)) => x == y,
        (Value::Number(x), Value::Number(y)) => x == y,
        (Value::Text(x), Value::Text(y)) => x == y,
        (Value::Object(x), Value::Object(y)) => x.0 == y.0,
        _ => false,
    }
}
