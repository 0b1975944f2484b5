//! Classes of objects.
use es_value::{ObjId, Str, Value};

/// What kind of object it is, with the internal slots of that kind.
#[derive(Debug, Drop)]
pub enum Class {
    Object,
    Array,
    /// What its maker keeps beside the heap under this number.
    Function(usize),
    /// A function of the library, by its number in the table of built-ins.
    Builtin(u16),
    /// A host function, by the host's index.
    Host(usize),
    Arguments,
    Error,
    /// The class that the 5.1 edition calls String.
    Text,
    Number,
    /// The class that the 5.1 edition calls Boolean.
    Bool,
    Namespace(usize),
    Generator(usize),
    /// What it goes over, or None once it is done, and the next index.
    ArrayIterator { of: Option<Value>, next: i64 },
    /// What it goes over, or None once it is done, and the offset of the next unit.
    StringIterator { of: Option<Str>, next: usize },
}

impl Class {
    ghost use Rattle.std.specs.Prelude.{◌≡◌};
    ghost use Rattle.es_heap.specs.Classes.{is_array};

    pub(crate) fn is_array(&self) -> bool
        ensures { result ≡ is_array self.now }
    {
        matches!(self, Class::Array)
    }
}
