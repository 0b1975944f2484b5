//! How a realm's heap is made.
ghost use Rattle.std.specs.Prelude.{◌≡◌, ◌+◌, ◌<◌, ◌^◌, [], length, fold, map, IfOk, OnOk};
ghost use Rattle.es_realm.specs.Tables.{constructor_entries, object_entries, array_entries, primitive_entries, error_entries, iterable_entries6, generator_entries6, iterator_entries6, object_entries5, own_class, class_of, with_row, with_function, with_entry, function_proto};
ghost use Rattle.es_realm.specs.Entries.{entry_of};
ghost use Rattle.es_realm.specs.Realms.{fresh6, fresh5, library5, library_objects, with_entries, with_library_entries, with_entries6, with_hosts};

use crate::edition::Edition;
use crate::names::{ERROR, FUNCTION_PROTOTYPE};
use crate::table::{
    ARRAY_ENTRIES, CONSTRUCTOR_ENTRIES, ERROR_ENTRIES, FUNCTIONS, FUNCTIONS5, FUNCTIONS6,
    GENERATOR_ENTRIES6, ITERABLE_ENTRIES6, ITERATOR_ENTRIES6, ITERATOR_PROTOTYPES, Kept, Kind,
    OBJECT_ENTRIES, OBJECT_ENTRIES5, PRIMITIVE_ENTRIES, PROTOTYPES, Row,
};
use es_heap::{Class, Heap, HeapFault, Key, Prop};
use es_value::{ObjId, Str, Value};
use std::alloc::{AllocError, Global};

fn own_class(kind: Kind) -> Class
    ensures { result ≡ own_class kind }
{
    match kind {
        Kind::Ordinary => Class::Object,
        Kind::List => Class::Array,
        Kind::Text => Class::Text,
        Kind::Number => Class::Number,
        Kind::Truth => Class::Bool,
        Kind::Error => Class::Error,
        Kind::Function => Class::Builtin(42),
    }
}

fn class_of(edition: Edition, kind: Kind) -> Class
    ensures { result ≡ class_of edition kind }
{
    match (edition, kind) {
        (Edition::Fifth, _) | (Edition::Sixth, Kind::List | Kind::Function) => own_class(kind),
        (Edition::Sixth, _) => Class::Object,
    }
}

#[tactic(auto, unfolding(crate::specs::Tables::with_row))]
fn add_row(heap: &mut Heap, alloc: Global, edition: Edition, row: Row) -> Result<(), AllocError>
    ensures { OnOk result (heap.new ≡ with_row edition heap.old row) }
{
    match row {
        Row::Root => heap.make(alloc, None, Class::Object)?,
        Row::Below(proto, kind) => heap.make(alloc, Some(proto), class_of(edition, kind))?,
    };
    Ok(())
}

fn add_rows(
    heap: &mut Heap,
    alloc: Global,
    edition: Edition,
    rows: &[Row],
) -> Result<(), AllocError>
    ensures { OnOk result (heap.new ≡ fold (with_row edition) heap.old rows.now) }
{
    for row in rows {
        add_row(heap, alloc, edition, *row)?;
    }
    Ok(())
}

fn function_proto(edition: Edition, number: u16) -> ObjId
    ensures { result ≡ function_proto edition number }
{
    match edition {
        Edition::Sixth if (4 <= number) & (number <= 6) => ERROR,
        Edition::Sixth | Edition::Fifth => FUNCTION_PROTOTYPE,
    }
}

#[tactic(auto, unfolding(crate::specs::Tables::with_function))]
fn add_function(
    heap: &mut Heap,
    alloc: Global,
    edition: Edition,
    number: u16,
) -> Result<(), AllocError>
    ensures { OnOk result (heap.new ≡ with_function edition heap.old number) }
{
    let proto = function_proto(edition, number);
    heap.make(alloc, Some(proto), Class::Builtin(number))?;
    Ok(())
}

fn add_functions(
    heap: &mut Heap,
    alloc: Global,
    edition: Edition,
    numbers: &[u16],
) -> Result<(), AllocError>
    ensures { OnOk result (heap.new ≡ fold (with_function edition) heap.old numbers.now) }
{
    for number in numbers {
        add_function(heap, alloc, edition, *number)?;
    }
    Ok(())
}

fn text_of(alloc: Global, word: &str) -> Result<Str, AllocError>
    ensures { IfOk result (λ text. text ≡ word.now) }
{
    Str::of_bytes(alloc, word.as_bytes())
}

fn holder_of(kept: Kept) -> ObjId
    ensures { result ≡ (entry_of kept).holder }
{
    match kept {
        Kept::Method(holder, _, _)
        | Kept::Iteration(holder, _)
        | Kept::Constant(holder, _, _)
        | Kept::Text(holder, _, _) => holder,
    }
}

fn key_of(alloc: Global, kept: Kept) -> Result<Key, AllocError>
    ensures { IfOk result (λ key. key ≡ (entry_of kept).key) }
{
    match kept {
        Kept::Method(_, name, _) | Kept::Constant(_, name, _) | Kept::Text(_, name, _) => {
            Ok(Key::Text(text_of(alloc, name)?))
        }
        Kept::Iteration(_, _) => Ok(Key::Iterator),
    }
}

fn value_of(alloc: Global, kept: Kept) -> Result<Value, AllocError>
    ensures { IfOk result (λ value. value ≡ (entry_of kept).value) }
{
    match kept {
        Kept::Method(_, _, object) | Kept::Iteration(_, object) | Kept::Constant(_, _, object) => {
            Ok(Value::Object(object))
        }
        Kept::Text(_, _, text) => Ok(Value::Text(text_of(alloc, text)?)),
    }
}

fn is_fixed(kept: Kept) -> bool
    ensures { result ≡ (entry_of kept).fixed }
{
    matches!(kept, Kept::Constant(_, _, _))
}

#[tactic(auto, unfolding(crate::specs::Tables::with_entry))]
fn add_entry(heap: &mut Heap, alloc: Global, kept: Kept) -> Result<(), AllocError>
    ensures { OnOk result (heap.new ≡ with_entry heap.old (entry_of kept)) }
{
    let property = Prop::Plain {
        value: value_of(alloc, kept)?,
        writable: !is_fixed(kept),
        configurable: !is_fixed(kept),
    };
    match heap.define_own(alloc, holder_of(kept), key_of(alloc, kept)?, property) {
        Err(HeapFault::OutOfMemory) => Err(AllocError),
        Ok(()) | Err(_) => Ok(()),
    }
}

fn add_entries(heap: &mut Heap, alloc: Global, entries: &[Kept]) -> Result<(), AllocError>
    ensures { OnOk result (heap.new ≡ fold with_entry heap.old (map entry_of entries.now)) }
{
    for kept in entries {
        add_entry(heap, alloc, *kept)?;
    }
    Ok(())
}

#[tactic(auto, unfolding(crate::specs::Tables::constructor_entries))]
fn add_constructor_entries(heap: &mut Heap, alloc: Global) -> Result<(), AllocError>
    ensures { OnOk result (heap.new ≡ with_entries constructor_entries heap.old) }
{
    let entries = CONSTRUCTOR_ENTRIES;
    add_entries(heap, alloc, &entries)
}

#[tactic(auto, unfolding(crate::specs::Tables::object_entries))]
fn add_object_entries(heap: &mut Heap, alloc: Global) -> Result<(), AllocError>
    ensures { OnOk result (heap.new ≡ with_entries object_entries heap.old) }
{
    let entries = OBJECT_ENTRIES;
    add_entries(heap, alloc, &entries)
}

#[tactic(auto, unfolding(crate::specs::Tables::array_entries))]
fn add_array_entries(heap: &mut Heap, alloc: Global) -> Result<(), AllocError>
    ensures { OnOk result (heap.new ≡ with_entries array_entries heap.old) }
{
    let entries = ARRAY_ENTRIES;
    add_entries(heap, alloc, &entries)
}

#[tactic(auto, unfolding(crate::specs::Tables::primitive_entries))]
fn add_primitive_entries(heap: &mut Heap, alloc: Global) -> Result<(), AllocError>
    ensures { OnOk result (heap.new ≡ with_entries primitive_entries heap.old) }
{
    let entries = PRIMITIVE_ENTRIES;
    add_entries(heap, alloc, &entries)
}

#[tactic(auto, unfolding(crate::specs::Tables::error_entries))]
fn add_error_entries(heap: &mut Heap, alloc: Global) -> Result<(), AllocError>
    ensures { OnOk result (heap.new ≡ with_entries error_entries heap.old) }
{
    let entries = ERROR_ENTRIES;
    add_entries(heap, alloc, &entries)
}

#[tactic(auto, unfolding(crate::specs::Tables::iterable_entries6))]
fn add_iterable_entries6(heap: &mut Heap, alloc: Global) -> Result<(), AllocError>
    ensures { OnOk result (heap.new ≡ with_entries iterable_entries6 heap.old) }
{
    let entries = ITERABLE_ENTRIES6;
    add_entries(heap, alloc, &entries)
}

#[tactic(auto, unfolding(crate::specs::Tables::generator_entries6))]
fn add_generator_entries6(heap: &mut Heap, alloc: Global) -> Result<(), AllocError>
    ensures { OnOk result (heap.new ≡ with_entries generator_entries6 heap.old) }
{
    let entries = GENERATOR_ENTRIES6;
    add_entries(heap, alloc, &entries)
}

#[tactic(auto, unfolding(crate::specs::Tables::iterator_entries6))]
fn add_iterator_entries6(heap: &mut Heap, alloc: Global) -> Result<(), AllocError>
    ensures { OnOk result (heap.new ≡ with_entries iterator_entries6 heap.old) }
{
    let entries = ITERATOR_ENTRIES6;
    add_entries(heap, alloc, &entries)
}

#[tactic(auto, unfolding(crate::specs::Tables::object_entries5))]
fn add_object_entries5(heap: &mut Heap, alloc: Global) -> Result<(), AllocError>
    ensures { OnOk result (heap.new ≡ with_entries object_entries5 heap.old) }
{
    let entries = OBJECT_ENTRIES5;
    add_entries(heap, alloc, &entries)
}

/// Adds the properties that both realms have.
#[tactic(auto, unfolding(crate::specs::Realms::with_library_entries))]
fn add_library_entries(heap: &mut Heap, alloc: Global) -> Result<(), AllocError>
    ensures { OnOk result (heap.new ≡ with_library_entries heap.old) }
{
    add_constructor_entries(heap, alloc)?;
    add_object_entries(heap, alloc)?;
    add_array_entries(heap, alloc)?;
    add_primitive_entries(heap, alloc)?;
    add_error_entries(heap, alloc)
}

/// Adds those that the realm of the 6th edition has besides.
#[tactic(auto, unfolding(crate::specs::Realms::with_entries6))]
fn add_entries6(heap: &mut Heap, alloc: Global) -> Result<(), AllocError>
    ensures { OnOk result (heap.new ≡ with_entries6 heap.old) }
{
    add_iterable_entries6(heap, alloc)?;
    add_generator_entries6(heap, alloc)?;
    add_iterator_entries6(heap, alloc)
}

/// The objects that both realms have.
#[tactic(auto, unfolding(crate::specs::Realms::library_objects))]
fn library_objects(alloc: Global, edition: Edition) -> Result<Heap, AllocError>
    ensures { IfOk result (λ heap. heap ≡ library_objects edition) }
{
    let mut heap = Heap::new(alloc);
    let prototypes = PROTOTYPES;
    let functions = FUNCTIONS;
    add_rows(&mut heap, alloc, edition, &prototypes)?;
    add_functions(&mut heap, alloc, edition, &functions)?;
    Ok(heap)
}

/// The heap of a fresh realm of the 6th edition.
#[tactic(auto, unfolding(crate::specs::Realms::fresh6))]
pub(crate) fn fresh6(alloc: Global) -> Result<Heap, AllocError>
    ensures { IfOk result (λ heap. heap ≡ fresh6) }
{
    let mut heap = library_objects(alloc, Edition::Sixth)?;
    let iterator_prototypes = ITERATOR_PROTOTYPES;
    let functions = FUNCTIONS6;
    add_rows(&mut heap, alloc, Edition::Sixth, &iterator_prototypes)?;
    add_functions(&mut heap, alloc, Edition::Sixth, &functions)?;
    add_library_entries(&mut heap, alloc)?;
    add_entries6(&mut heap, alloc)?;
    Ok(heap)
}

/// The heap of a fresh realm of the 5.1 edition, without hosts.
#[tactic(auto, unfolding(crate::specs::Realms::library5))]
fn library5(alloc: Global) -> Result<Heap, AllocError>
    ensures { IfOk result (λ heap. heap ≡ library5) }
{
    let mut heap = library_objects(alloc, Edition::Fifth)?;
    let functions = FUNCTIONS5;
    add_functions(&mut heap, alloc, Edition::Fifth, &functions)?;
    add_library_entries(&mut heap, alloc)?;
    add_object_entries5(&mut heap, alloc)?;
    Ok(heap)
}

/// The heap of a fresh realm of the 5.1 edition with this many hosts.
pub(crate) fn fresh5(alloc: Global, hosts: usize) -> Result<Heap, AllocError>
    ensures { IfOk result (λ heap. heap ≡ fresh5 hosts) }
{
    let mut heap = library5(alloc)?;
    for host in 0..hosts {
        heap.make(alloc, Some(FUNCTION_PROTOTYPE), Class::Host(host))?;
    }
    Ok(heap)
}
