//! The realms: the objects of the library by their names.
ghost use Rattle.std.specs.Prelude.{◌≡◌, ◌<◌, ◌^◌, length, IfOk};
ghost use Rattle.es_realm.specs.Realms.{fresh6, fresh5, library_names, realm6, realm5, host_functions};

use crate::names::*;
use crate::start::{fresh5, fresh6};
use es_heap::Heap;
use es_outside::HostNames;
use es_value::ObjId;
use std::alloc::{AllocError, Global};

/// The objects that both realms have.
#[derive(Debug, Drop)]
pub struct Library {
    pub object_prototype: ObjId,
    pub function_prototype: ObjId,
    pub array_prototype: ObjId,
    pub string_prototype: ObjId,
    pub number_prototype: ObjId,
    pub boolean_prototype: ObjId,
    pub error_prototype: ObjId,
    pub type_error_prototype: ObjId,
    pub reference_error_prototype: ObjId,
    pub range_error_prototype: ObjId,
    pub object: ObjId,
    pub array: ObjId,
    pub string: ObjId,
    pub error: ObjId,
    pub type_error: ObjId,
    pub reference_error: ObjId,
    pub range_error: ObjId,
    pub object_create: ObjId,
    pub array_is_array: ObjId,
    pub object_has_own_property: ObjId,
    pub object_to_string: ObjId,
    pub object_value_of: ObjId,
    pub function_call: ObjId,
    pub function_apply: ObjId,
    pub function_to_string: ObjId,
    pub array_push: ObjId,
    pub array_pop: ObjId,
    pub array_index_of: ObjId,
    pub array_join: ObjId,
    pub array_for_each: ObjId,
    pub array_to_string: ObjId,
    pub string_char_at: ObjId,
    pub string_char_code_at: ObjId,
    pub string_index_of: ObjId,
    pub string_substring: ObjId,
    pub string_to_string: ObjId,
    pub number_to_string: ObjId,
    pub boolean_to_string: ObjId,
    pub error_to_string: ObjId,
}

/// The objects of the 6th edition's realm. The prototype of generator functions is that of 25.2.3; one function serves the
/// iterator keys of generators and of both kinds of iterator (25.1.2.1).
#[derive(Debug, Drop)]
pub struct Realm6 {
    pub library: Library,
    pub generator_function_prototype: ObjId,
    pub generator_prototype: ObjId,
    pub array_iterator_prototype: ObjId,
    pub string_iterator_prototype: ObjId,
    pub array_iterator: ObjId,
    pub array_includes: ObjId,
    pub string_iterator: ObjId,
    pub generator_next: ObjId,
    pub generator_return: ObjId,
    pub generator_throw: ObjId,
    pub iterator_self: ObjId,
    pub array_iterator_next: ObjId,
    pub string_iterator_next: ObjId,
}

/// The objects of the 5.1 edition's realm, and the host functions by their hosts' indices.
#[derive(Debug, Drop)]
pub struct Realm5 {
    pub library: Library,
    pub object_define_property: ObjId,
    pub object_get_own_property_descriptor: ObjId,
    pub object_get_prototype_of: ObjId,
    pub object_prevent_extensions: ObjId,
    pub hosts: Vec<ObjId>,
}

/// The realm in which a step is done.
#[derive(Clone, Copy)]
pub enum RealmOf<'a> {
    Six(&'a Realm6),
    Five(&'a Realm5),
}

/// The objects that both realms have, which stand at the same places in both.
fn library_names() -> Library
    ensures { result ≡ library_names }
{
    Library {
        object_prototype: OBJECT_PROTOTYPE,
        function_prototype: FUNCTION_PROTOTYPE,
        array_prototype: ARRAY_PROTOTYPE,
        string_prototype: STRING_PROTOTYPE,
        number_prototype: NUMBER_PROTOTYPE,
        boolean_prototype: BOOLEAN_PROTOTYPE,
        error_prototype: ERROR_PROTOTYPE,
        type_error_prototype: TYPE_ERROR_PROTOTYPE,
        reference_error_prototype: REFERENCE_ERROR_PROTOTYPE,
        range_error_prototype: RANGE_ERROR_PROTOTYPE,
        object: OBJECT,
        array: ARRAY,
        string: STRING,
        error: ERROR,
        type_error: TYPE_ERROR,
        reference_error: REFERENCE_ERROR,
        range_error: RANGE_ERROR,
        object_create: OBJECT_CREATE,
        array_is_array: ARRAY_IS_ARRAY,
        object_has_own_property: OBJECT_HAS_OWN_PROPERTY,
        object_to_string: OBJECT_TO_STRING,
        object_value_of: OBJECT_VALUE_OF,
        function_call: FUNCTION_CALL,
        function_apply: FUNCTION_APPLY,
        function_to_string: FUNCTION_TO_STRING,
        array_push: ARRAY_PUSH,
        array_pop: ARRAY_POP,
        array_index_of: ARRAY_INDEX_OF,
        array_join: ARRAY_JOIN,
        array_for_each: ARRAY_FOR_EACH,
        array_to_string: ARRAY_TO_STRING,
        string_char_at: STRING_CHAR_AT,
        string_char_code_at: STRING_CHAR_CODE_AT,
        string_index_of: STRING_INDEX_OF,
        string_substring: STRING_SUBSTRING,
        string_to_string: STRING_TO_STRING,
        number_to_string: NUMBER_TO_STRING,
        boolean_to_string: BOOLEAN_TO_STRING,
        error_to_string: ERROR_TO_STRING,
    }
}

impl Realm6 {
    /// A fresh realm in a heap of its own.
    pub fn start(alloc: Global) -> Result<(Heap, Realm6), AllocError>
        ensures { IfOk result (λ start. (start.0 ≡ fresh6) × (start.1 ≡ realm6)) }
    {
        let heap = fresh6(alloc)?;
        let realm = Realm6 {
            library: library_names(),
            generator_function_prototype: GENERATOR_FUNCTION_PROTOTYPE,
            generator_prototype: GENERATOR_PROTOTYPE,
            array_iterator_prototype: ARRAY_ITERATOR_PROTOTYPE,
            string_iterator_prototype: STRING_ITERATOR_PROTOTYPE,
            array_iterator: ARRAY_ITERATOR,
            array_includes: ARRAY_INCLUDES,
            string_iterator: STRING_ITERATOR,
            generator_next: GENERATOR_NEXT,
            generator_return: GENERATOR_RETURN,
            generator_throw: GENERATOR_THROW,
            iterator_self: ITERATOR_SELF,
            array_iterator_next: ARRAY_ITERATOR_NEXT,
            string_iterator_next: STRING_ITERATOR_NEXT,
        };
        Ok((heap, realm))
    }
}

/// The host functions, which come directly after the objects of the library.
fn host_functions(alloc: Global, hosts: usize) -> Result<Vec<ObjId>, AllocError>
    requires { hosts < 2 ^ 63 }
    ensures { IfOk result (λ list. list.items ≡ host_functions hosts) }
{
    let mut list = Vec::new(alloc);
    for host in 0..hosts {
        list.push(ObjId(LIBRARY5 + host))?;
    }
    Ok(list)
}

impl Realm5 {
    /// A fresh realm with these hosts, in a heap of its own.
    pub fn start(alloc: Global, hosts: &HostNames) -> Result<(Heap, Realm5), AllocError>
        ensures { let count = length hosts.now in
            IfOk result (λ start. (start.0 ≡ fresh5 count) × (start.1.hosts.items ≡ host_functions count) × (start.1 ≡ realm5 start.1.hosts)) }
    {
        let count = hosts.len();
        let heap = fresh5(alloc, count)?;
        let hosts = host_functions(alloc, count)?;
        let realm = Realm5 {
            library: library_names(),
            object_define_property: OBJECT_DEFINE_PROPERTY,
            object_get_own_property_descriptor: OBJECT_GET_OWN_PROPERTY_DESCRIPTOR,
            object_get_prototype_of: OBJECT_GET_PROTOTYPE_OF,
            object_prevent_extensions: OBJECT_PREVENT_EXTENSIONS,
            hosts,
        };
        Ok((heap, realm))
    }
}
