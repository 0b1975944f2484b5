//! The objects of the library by their names: an object's name is its place in a fresh heap.
use es_value::ObjId;

// The prototypes of both realms.
pub const OBJECT_PROTOTYPE: ObjId = ObjId(0);

pub const FUNCTION_PROTOTYPE: ObjId = ObjId(1);

pub const ARRAY_PROTOTYPE: ObjId = ObjId(2);

pub const STRING_PROTOTYPE: ObjId = ObjId(3);

pub const NUMBER_PROTOTYPE: ObjId = ObjId(4);

pub const BOOLEAN_PROTOTYPE: ObjId = ObjId(5);

pub const ERROR_PROTOTYPE: ObjId = ObjId(6);

pub const TYPE_ERROR_PROTOTYPE: ObjId = ObjId(7);

pub const REFERENCE_ERROR_PROTOTYPE: ObjId = ObjId(8);

pub const RANGE_ERROR_PROTOTYPE: ObjId = ObjId(9);

// The functions of both realms.
pub const OBJECT: ObjId = ObjId(10);

pub const ARRAY: ObjId = ObjId(11);

pub const STRING: ObjId = ObjId(12);

pub const ERROR: ObjId = ObjId(13);

pub const TYPE_ERROR: ObjId = ObjId(14);

pub const REFERENCE_ERROR: ObjId = ObjId(15);

pub const RANGE_ERROR: ObjId = ObjId(16);

pub const OBJECT_CREATE: ObjId = ObjId(17);

pub const ARRAY_IS_ARRAY: ObjId = ObjId(18);

pub const OBJECT_HAS_OWN_PROPERTY: ObjId = ObjId(19);

pub const OBJECT_TO_STRING: ObjId = ObjId(20);

pub const OBJECT_VALUE_OF: ObjId = ObjId(21);

pub const FUNCTION_CALL: ObjId = ObjId(22);

pub const FUNCTION_APPLY: ObjId = ObjId(23);

pub const FUNCTION_TO_STRING: ObjId = ObjId(24);

pub const ARRAY_PUSH: ObjId = ObjId(25);

pub const ARRAY_POP: ObjId = ObjId(26);

pub const ARRAY_INDEX_OF: ObjId = ObjId(27);

pub const ARRAY_JOIN: ObjId = ObjId(28);

pub const ARRAY_FOR_EACH: ObjId = ObjId(29);

pub const ARRAY_TO_STRING: ObjId = ObjId(30);

pub const STRING_CHAR_AT: ObjId = ObjId(31);

pub const STRING_CHAR_CODE_AT: ObjId = ObjId(32);

pub const STRING_INDEX_OF: ObjId = ObjId(33);

pub const STRING_SUBSTRING: ObjId = ObjId(34);

pub const STRING_TO_STRING: ObjId = ObjId(35);

pub const NUMBER_TO_STRING: ObjId = ObjId(36);

pub const BOOLEAN_TO_STRING: ObjId = ObjId(37);

pub const ERROR_TO_STRING: ObjId = ObjId(38);

// The prototypes that the 6th edition's realm has besides; the first is that of generator functions (25.2.3).
pub const GENERATOR_FUNCTION_PROTOTYPE: ObjId = ObjId(39);

pub const GENERATOR_PROTOTYPE: ObjId = ObjId(40);

pub const ARRAY_ITERATOR_PROTOTYPE: ObjId = ObjId(41);

pub const STRING_ITERATOR_PROTOTYPE: ObjId = ObjId(42);

// The functions that the 6th edition's realm has besides.
pub const ARRAY_ITERATOR: ObjId = ObjId(43);

pub const ARRAY_INCLUDES: ObjId = ObjId(44);

pub const STRING_ITERATOR: ObjId = ObjId(45);

pub const GENERATOR_NEXT: ObjId = ObjId(46);

pub const GENERATOR_RETURN: ObjId = ObjId(47);

pub const GENERATOR_THROW: ObjId = ObjId(48);

pub const ITERATOR_SELF: ObjId = ObjId(49);

pub const ARRAY_ITERATOR_NEXT: ObjId = ObjId(50);

pub const STRING_ITERATOR_NEXT: ObjId = ObjId(51);

// The functions that the 5.1 edition's realm has besides.
pub const OBJECT_DEFINE_PROPERTY: ObjId = ObjId(39);

pub const OBJECT_GET_OWN_PROPERTY_DESCRIPTOR: ObjId = ObjId(40);

pub const OBJECT_GET_PROTOTYPE_OF: ObjId = ObjId(41);

pub const OBJECT_PREVENT_EXTENSIONS: ObjId = ObjId(42);

/// How many objects the library of the 5.1 edition's realm has.
pub(crate) const LIBRARY5: usize = 43;
