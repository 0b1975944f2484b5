//! What evaluation makes (ECMA-262, 6th edition, 9.2, 9.4.6, 12.2.9.3, 14.4, 14.5 and 25.3; 5.1 edition, 13.2). After `Err` nothing is
//! said of the heap.
ghost use Rattle.std.specs.Prelude.{◌≡◌, ◌<◌, ◌^◌, IfOk, OnOk, [], ◌∷◌};
ghost use Rattle.std.specs.Option.{option_copied};
ghost use Rattle.es_heap.specs.declared.prop.Prop.TheVariants.{Plain as PlainProp};
ghost use Rattle.es_heap.specs.Heaps.{next_id};
ghost use Rattle.es_operations.specs.Making.{with_own, bare_function, with_prototype, with_constructor, plain_function, method_function, generator_function, class_function, class_prototype, with_recorded, getter_of, setter_of, with_half, made_generator, not_extensible, made_namespace, frozen, with_texts, frozen_list, made_template};

use es_calls::index_key;
use es_heap::{Class, Heap, HeapFault, Key, Prop};
use es_operators::key_of_word;
use es_realm::Edition;
use es_realm::names::{
    ARRAY_PROTOTYPE, FUNCTION_PROTOTYPE, GENERATOR_FUNCTION_PROTOTYPE, GENERATOR_PROTOTYPE,
    OBJECT_PROTOTYPE,
};
use es_value::{ObjId, Value};
use std::alloc::{AllocError, Global};

/// The objects of a class: its function, and the `prototype` of that.
#[derive(Clone, Copy, Debug, PartialEq, Eq)]
pub struct ClassObjects {
    pub function: ObjId,
    pub prototype: ObjId,
}

/// Defines an own property; a refusal changes what the standard's operation changes.
fn define(
    alloc: Global,
    heap: &mut Heap,
    id: ObjId,
    name: &[u8],
    property: Prop,
) -> Result<(), AllocError>
    ensures { OnOk result (heap.new ≡ with_own heap.old id name.now property) }
{
    match heap.define_own(alloc, id, key_of_word(alloc, name)?, property) {
        Err(HeapFault::OutOfMemory) => Err(AllocError),
        Ok(()) | Err(_) => Ok(()),
    }
}

/// A function with this number and prototype; its `length` can be configured in the 6th edition alone.
#[tactic(auto, unfolding(es_operations::specs::Making::bare_function))]
fn bare_function(
    alloc: Global,
    edition: Edition,
    heap: &mut Heap,
    number: usize,
    proto: ObjId,
    count: u32,
) -> Result<ObjId, AllocError>
    ensures { IfOk result (λ id. (id ≡ next_id heap.old) × (heap.new ≡ bare_function edition heap.old number proto count)) }
{
    let id = heap.make(alloc, Some(proto), Class::Function(number))?;
    let length = Prop::Plain {
        value: Value::Number(i64::from(count)),
        writable: false,
        configurable: matches!(edition, Edition::Sixth),
    };
    define(alloc, heap, id, b"length", length)?;
    Ok(id)
}

/// A new object with this prototype becomes the function's `prototype`.
#[tactic(auto, unfolding(es_operations::specs::Making::with_prototype))]
fn with_prototype(
    alloc: Global,
    heap: &mut Heap,
    function: ObjId,
    above: Option<ObjId>,
    writable: bool,
) -> Result<ObjId, AllocError>
    ensures { IfOk result (λ id. (id ≡ next_id heap.old) × (heap.new ≡ with_prototype heap.old function above writable)) }
{
    let id = heap.make(alloc, above, Class::Object)?;
    let property = Prop::Plain {
        value: Value::Object(id),
        writable,
        configurable: false,
    };
    define(alloc, heap, function, b"prototype", property)?;
    Ok(id)
}

/// The function is the `constructor` of that object (9.2.8).
#[tactic(auto, unfolding(es_operations::specs::Making::with_constructor))]
fn with_constructor(
    alloc: Global,
    heap: &mut Heap,
    prototype: ObjId,
    function: ObjId,
) -> Result<(), AllocError>
    ensures { OnOk result (heap.new ≡ with_constructor heap.old prototype function) }
{
    let property = Prop::Plain {
        value: Value::Object(function),
        writable: true,
        configurable: true,
    };
    define(alloc, heap, prototype, b"constructor", property)
}

/// A new function that can be constructed (9.2.5, 9.2.8). `number` is what the caller keeps its closure under, `count` the value of its
/// `length`.
pub fn plain_function(
    alloc: Global,
    edition: Edition,
    heap: &mut Heap,
    number: usize,
    count: u32,
) -> Result<ObjId, AllocError>
    ensures { IfOk result (λ id. (id ≡ next_id heap.old) × (heap.new ≡ plain_function edition heap.old number count)) }
{
    let id = bare_function(alloc, edition, heap, number, FUNCTION_PROTOTYPE, count)?;
    let prototype = with_prototype(alloc, heap, id, Some(OBJECT_PROTOTYPE), true)?;
    with_constructor(alloc, heap, prototype, id)?;
    Ok(id)
}

/// A new arrow, method or accessor (9.2.5, 9.2.7).
pub fn method_function(
    alloc: Global,
    edition: Edition,
    heap: &mut Heap,
    number: usize,
    count: u32,
) -> Result<ObjId, AllocError>
    ensures { IfOk result (λ id. (id ≡ next_id heap.old) × (heap.new ≡ method_function edition heap.old number count)) }
{
    bare_function(alloc, edition, heap, number, FUNCTION_PROTOTYPE, count)
}

/// A new generator function (14.4.11).
pub fn generator_function(
    alloc: Global,
    edition: Edition,
    heap: &mut Heap,
    number: usize,
    count: u32,
) -> Result<ObjId, AllocError>
    ensures { IfOk result (λ id. (id ≡ next_id heap.old) × (heap.new ≡ generator_function edition heap.old number count)) }
{
    let proto = GENERATOR_FUNCTION_PROTOTYPE;
    let id = bare_function(alloc, edition, heap, number, proto, count)?;
    with_prototype(alloc, heap, id, Some(GENERATOR_PROTOTYPE), true)?;
    Ok(id)
}

/// A new class (14.5.14) with these prototypes: `parent` of its function, `above` of the function's own `prototype`.
#[tactic(auto, using(crate::proofs::Grown::behind_function))]
pub fn class_function(
    alloc: Global,
    edition: Edition,
    heap: &mut Heap,
    number: usize,
    count: u32,
    parent: ObjId,
    above: Option<ObjId>,
) -> Result<ClassObjects, AllocError>
    ensures { IfOk result (λ made. (made.function ≡ next_id heap.old) × (made.prototype ≡ class_prototype heap.old) × (heap.new ≡ class_function edition heap.old number count parent above)) }
{
    let function = bare_function(alloc, edition, heap, number, parent, count)?;
    let prototype = with_prototype(alloc, heap, function, above, false)?;
    with_constructor(alloc, heap, prototype, function)?;
    Ok(ClassObjects {
        function,
        prototype,
    })
}

/// Records these keys for a class, whose statics they are.
pub fn with_recorded(
    alloc: Global,
    heap: &mut Heap,
    class: ObjId,
    keys: &[Key],
) -> Result<(), AllocError>
    ensures { OnOk result (heap.new ≡ with_recorded heap.old class keys.now) }
{
    for key in keys {
        heap.record_key(alloc, class, key.share()?)?;
    }
    Ok(())
}

fn getter_of(property: Option<&Prop>) -> Option<ObjId>
    ensures { result ≡ getter_of (option_copied property.entry) }
{
    match property {
        Some(Prop::Accessor { get, .. }) => *get,
        _ => None,
    }
}

fn setter_of(property: Option<&Prop>) -> Option<ObjId>
    ensures { result ≡ setter_of (option_copied property.entry) }
{
    match property {
        Some(Prop::Accessor { set, .. }) => *set,
        _ => None,
    }
}

/// The property that this accessor of the key becomes, which keeps the other half (12.2.6.8, 14.3.9).
pub fn with_half(heap: &Heap, id: ObjId, key: &Key, function: ObjId, is_setter: bool) -> Prop
    ensures { result ≡ with_half heap.now id key.now function is_setter }
{
    let now = heap.get_own(id, key);
    if is_setter {
        Prop::Accessor {
            get: getter_of(now),
            set: Some(function),
            configurable: true,
        }
    } else {
        Prop::Accessor {
            get: Some(function),
            set: setter_of(now),
            configurable: true,
        }
    }
}

/// A new generator (25.3), which the caller keeps under this number.
pub fn made_generator(
    alloc: Global,
    heap: &mut Heap,
    proto: ObjId,
    number: usize,
) -> Result<ObjId, AllocError>
    ensures { IfOk result (λ id. (id ≡ next_id heap.old) × (heap.new ≡ made_generator heap.old proto number)) }
{
    heap.make(alloc, Some(proto), Class::Generator(number))
}

/// A new namespace object (9.4.6.13), whose names the caller keeps under this number.
pub fn made_namespace(alloc: Global, heap: &mut Heap, number: usize) -> Result<ObjId, AllocError>
    ensures { IfOk result (λ id. (id ≡ next_id heap.old) × (heap.new ≡ made_namespace heap.old number)) }
{
    let id = heap.make(alloc, None, Class::Namespace(number))?;
    heap.prevent_extensions(id);
    Ok(id)
}

/// An element of a list that doesn't change any more.
fn add_text(
    alloc: Global,
    heap: &mut Heap,
    id: ObjId,
    index: usize,
    value: &Value,
) -> Result<(), AllocError>
    requires { index < 2 ^ 63 }
    ensures { OnOk result (heap.new ≡ with_texts heap.old id index (value.now ∷ [])) }
{
    let property = Prop::Plain {
        value: value.share()?,
        writable: false,
        configurable: false,
    };
    match heap.define_own(alloc, id, index_key(alloc, index as i64)?, property) {
        Err(HeapFault::OutOfMemory) => Err(AllocError),
        Ok(()) | Err(_) => Ok(()),
    }
}

fn with_texts(alloc: Global, heap: &mut Heap, id: ObjId, values: &[Value]) -> Result<(), AllocError>
    ensures { OnOk result (heap.new ≡ with_texts heap.old id 0 values.now) }
{
    for index in 0..values.len() {
        add_text(alloc, heap, id, index, &values[index])?;
    }
    Ok(())
}

/// A property that doesn't change any more.
fn frozen(value: Value) -> Prop
    ensures { result ≡ frozen value }
{
    Prop::Plain {
        value,
        writable: false,
        configurable: false,
    }
}

/// Fills an array with these values, which is frozen then.
fn frozen_list(
    alloc: Global,
    heap: &mut Heap,
    id: ObjId,
    values: &[Value],
) -> Result<(), AllocError>
    ensures { OnOk result (heap.new ≡ frozen_list heap.old id values.now) }
{
    with_texts(alloc, heap, id, values)?;
    let length = Value::Number(values.len() as i64);
    define(alloc, heap, id, b"length", frozen(length))?;
    heap.prevent_extensions(id);
    Ok(())
}

/// A new template object (12.2.9.3) of these texts, as they are cooked and as they are written.
pub fn made_template(
    alloc: Global,
    heap: &mut Heap,
    cooked: &[Value],
    raw: &[Value],
) -> Result<ObjId, AllocError>
    ensures { IfOk result (λ id. (id ≡ next_id heap.old) × (heap.new ≡ made_template heap.old cooked.now raw.now)) }
{
    let template = heap.make(alloc, Some(ARRAY_PROTOTYPE), Class::Array)?;
    let raw_list = heap.make(alloc, Some(ARRAY_PROTOTYPE), Class::Array)?;
    frozen_list(alloc, heap, raw_list, raw)?;
    define(
        alloc,
        heap,
        template,
        b"raw",
        frozen(Value::Object(raw_list)),
    )?;
    frozen_list(alloc, heap, template, cooked)?;
    Ok(template)
}
