//! The library as data: which objects a realm has, and which properties they have (ECMA-262, 6th edition, 19 to 22 and 25;
//! 5.1 edition, 15). The tables are cut so that a function adds a few rows each.
use crate::names::*;
use es_value::ObjId;

/// What kind of object a prototype is. Those of texts, numbers, truth values and errors are such objects in the 5.1 edition alone.
#[derive(Clone, Copy)]
pub(crate) enum Kind {
    Ordinary,
    List,
    Text,
    Number,
    Truth,
    Error,
    Function,
}

/// A prototype as it is made: the root of the chains, or one below that object.
#[derive(Clone, Copy)]
pub(crate) enum Row {
    Root,
    Below(ObjId, Kind),
}

/// A property, with its holder first. A constant is neither writable nor configurable, and others are both (17).
#[derive(Clone, Copy)]
pub(crate) enum Kept {
    Method(ObjId, &'static str, ObjId),
    /// What the iterator key gives.
    Iteration(ObjId, ObjId),
    Constant(ObjId, &'static str, ObjId),
    Text(ObjId, &'static str, &'static str),
}

/// The prototypes that both realms have.
pub(crate) const PROTOTYPES: [Row; 10] = [
    Row::Root,
    Row::Below(OBJECT_PROTOTYPE, Kind::Function),
    Row::Below(OBJECT_PROTOTYPE, Kind::List),
    Row::Below(OBJECT_PROTOTYPE, Kind::Text),
    Row::Below(OBJECT_PROTOTYPE, Kind::Number),
    Row::Below(OBJECT_PROTOTYPE, Kind::Truth),
    Row::Below(OBJECT_PROTOTYPE, Kind::Error),
    Row::Below(ERROR_PROTOTYPE, Kind::Error),
    Row::Below(ERROR_PROTOTYPE, Kind::Error),
    Row::Below(ERROR_PROTOTYPE, Kind::Error),
];

/// The prototypes of generator functions, generators, and array and text iterators.
pub(crate) const ITERATOR_PROTOTYPES: [Row; 4] = [
    Row::Below(FUNCTION_PROTOTYPE, Kind::Ordinary),
    Row::Below(OBJECT_PROTOTYPE, Kind::Ordinary),
    Row::Below(OBJECT_PROTOTYPE, Kind::Ordinary),
    Row::Below(OBJECT_PROTOTYPE, Kind::Ordinary),
];

/// The numbers of the functions of both realms, and of those that one of them has besides.
pub(crate) const FUNCTIONS: [u16; 29] = [
    0, 1, 2, 3, 4, 5, 6, 7, 8, 9, 10, 11, 12, 13, 14, 15, 16, 17, 18, 19, 20, 23, 24, 25, 26, 27,
    29, 30, 31,
];

pub(crate) const FUNCTIONS6: [u16; 9] = [21, 22, 28, 32, 33, 34, 35, 36, 37];

pub(crate) const FUNCTIONS5: [u16; 4] = [38, 39, 40, 41];

/// Of the functions that make objects (19.1.2, 22.1.2, 21.1.2 and 19.5).
pub(crate) const CONSTRUCTOR_ENTRIES: [Kept; 9] = [
    Kept::Method(OBJECT, "create", OBJECT_CREATE),
    Kept::Constant(OBJECT, "prototype", OBJECT_PROTOTYPE),
    Kept::Method(ARRAY, "isArray", ARRAY_IS_ARRAY),
    Kept::Constant(ARRAY, "prototype", ARRAY_PROTOTYPE),
    Kept::Constant(STRING, "prototype", STRING_PROTOTYPE),
    Kept::Constant(ERROR, "prototype", ERROR_PROTOTYPE),
    Kept::Constant(TYPE_ERROR, "prototype", TYPE_ERROR_PROTOTYPE),
    Kept::Constant(REFERENCE_ERROR, "prototype", REFERENCE_ERROR_PROTOTYPE),
    Kept::Constant(RANGE_ERROR, "prototype", RANGE_ERROR_PROTOTYPE),
];

/// Of the prototypes of objects and functions (19.1.3 and 19.2.3).
pub(crate) const OBJECT_ENTRIES: [Kept; 6] = [
    Kept::Method(OBJECT_PROTOTYPE, "hasOwnProperty", OBJECT_HAS_OWN_PROPERTY),
    Kept::Method(OBJECT_PROTOTYPE, "toString", OBJECT_TO_STRING),
    Kept::Method(OBJECT_PROTOTYPE, "valueOf", OBJECT_VALUE_OF),
    Kept::Method(FUNCTION_PROTOTYPE, "call", FUNCTION_CALL),
    Kept::Method(FUNCTION_PROTOTYPE, "apply", FUNCTION_APPLY),
    Kept::Method(FUNCTION_PROTOTYPE, "toString", FUNCTION_TO_STRING),
];

/// Of the prototype of arrays (22.1.3).
pub(crate) const ARRAY_ENTRIES: [Kept; 6] = [
    Kept::Method(ARRAY_PROTOTYPE, "push", ARRAY_PUSH),
    Kept::Method(ARRAY_PROTOTYPE, "pop", ARRAY_POP),
    Kept::Method(ARRAY_PROTOTYPE, "indexOf", ARRAY_INDEX_OF),
    Kept::Method(ARRAY_PROTOTYPE, "join", ARRAY_JOIN),
    Kept::Method(ARRAY_PROTOTYPE, "forEach", ARRAY_FOR_EACH),
    Kept::Method(ARRAY_PROTOTYPE, "toString", ARRAY_TO_STRING),
];

/// Of the prototypes of texts, numbers and truth values (21.1.3, 20.1.3 and 19.3.3).
pub(crate) const PRIMITIVE_ENTRIES: [Kept; 7] = [
    Kept::Method(STRING_PROTOTYPE, "charAt", STRING_CHAR_AT),
    Kept::Method(STRING_PROTOTYPE, "charCodeAt", STRING_CHAR_CODE_AT),
    Kept::Method(STRING_PROTOTYPE, "indexOf", STRING_INDEX_OF),
    Kept::Method(STRING_PROTOTYPE, "substring", STRING_SUBSTRING),
    Kept::Method(STRING_PROTOTYPE, "toString", STRING_TO_STRING),
    Kept::Method(NUMBER_PROTOTYPE, "toString", NUMBER_TO_STRING),
    Kept::Method(BOOLEAN_PROTOTYPE, "toString", BOOLEAN_TO_STRING),
];

/// Of the prototypes of errors (19.5.3 and 19.5.6.3).
pub(crate) const ERROR_ENTRIES: [Kept; 9] = [
    Kept::Text(ERROR_PROTOTYPE, "name", "Error"),
    Kept::Text(ERROR_PROTOTYPE, "message", ""),
    Kept::Text(TYPE_ERROR_PROTOTYPE, "name", "TypeError"),
    Kept::Text(TYPE_ERROR_PROTOTYPE, "message", ""),
    Kept::Text(REFERENCE_ERROR_PROTOTYPE, "name", "ReferenceError"),
    Kept::Text(REFERENCE_ERROR_PROTOTYPE, "message", ""),
    Kept::Text(RANGE_ERROR_PROTOTYPE, "name", "RangeError"),
    Kept::Text(RANGE_ERROR_PROTOTYPE, "message", ""),
    Kept::Method(ERROR_PROTOTYPE, "toString", ERROR_TO_STRING),
];

/// Of the prototypes of arrays and texts (22.1.3 and 21.1.3), in the 6th edition alone.
pub(crate) const ITERABLE_ENTRIES6: [Kept; 3] = [
    Kept::Iteration(ARRAY_PROTOTYPE, ARRAY_ITERATOR),
    Kept::Method(ARRAY_PROTOTYPE, "includes", ARRAY_INCLUDES),
    Kept::Iteration(STRING_PROTOTYPE, STRING_ITERATOR),
];

/// Of the prototype of generators (25.3.1).
pub(crate) const GENERATOR_ENTRIES6: [Kept; 4] = [
    Kept::Method(GENERATOR_PROTOTYPE, "next", GENERATOR_NEXT),
    Kept::Method(GENERATOR_PROTOTYPE, "return", GENERATOR_RETURN),
    Kept::Method(GENERATOR_PROTOTYPE, "throw", GENERATOR_THROW),
    Kept::Iteration(GENERATOR_PROTOTYPE, ITERATOR_SELF),
];

/// Of the prototypes of array and text iterators (22.1.5.2 and 21.1.5.2).
pub(crate) const ITERATOR_ENTRIES6: [Kept; 4] = [
    Kept::Method(ARRAY_ITERATOR_PROTOTYPE, "next", ARRAY_ITERATOR_NEXT),
    Kept::Iteration(ARRAY_ITERATOR_PROTOTYPE, ITERATOR_SELF),
    Kept::Method(STRING_ITERATOR_PROTOTYPE, "next", STRING_ITERATOR_NEXT),
    Kept::Iteration(STRING_ITERATOR_PROTOTYPE, ITERATOR_SELF),
];

/// Of Object, in the 5.1 edition alone (15.2.3).
pub(crate) const OBJECT_ENTRIES5: [Kept; 4] = [
    Kept::Method(OBJECT, "defineProperty", OBJECT_DEFINE_PROPERTY),
    Kept::Method(
        OBJECT,
        "getOwnPropertyDescriptor",
        OBJECT_GET_OWN_PROPERTY_DESCRIPTOR,
    ),
    Kept::Method(OBJECT, "getPrototypeOf", OBJECT_GET_PROTOTYPE_OF),
    Kept::Method(OBJECT, "preventExtensions", OBJECT_PREVENT_EXTENSIONS),
];
