//! Namespace objects are read (ECMA-262, 6th edition, 9.4.6.7, 9.4.6.8): a binding, or only whether the name is there.

ghost use Rattle.std.specs.Prelude.{◌≡◌, [], IfOk, false, slice_index_or, true};
ghost use Rattle.std.specs.Option.{option_copied};
ghost use Rattle.source_meaning.specs.Modules.{export_in, exports_at, is_export, read_out};
ghost use Rattle.source_moves.specs.Moves.{Steps};
ghost use Rattle.source_moves.specs.Seen.{state_of};
ghost use Rattle.source_modules.specs.Found.{binding_held, found_in, held_of};

use core_state::Table;
use es_heap::{Class, Key};
use es_value::{ObjId, Str, Value};
use source_moves::{Move, Moved, PendingWork, read_held, share_held_by};
use source_state::{Exported, Held, State};
use sqlite_items::Items;
use std::alloc::{AllocError, Global};

fn is_export<'a>(units: &Str, exported: &Exported<'a>) -> bool
    ensures { result ≡ is_export units.now exported.now }
{
    units.units() == exported.name.units()
}

fn text_in<'s, 'a>(exports: &'s [Exported<'a>], units: &Str) -> Option<&'s Exported<'a>>
    ensures { option_copied result ≡ found_in exports.now units.now }
{
    for exported in exports {
        if is_export(units, exported) {
            return Some(exported);
        }
    }
    None
}

fn export_in<'s, 'a>(exports: &'s [Exported<'a>], key: &Key) -> Option<&'s Exported<'a>>
    ensures { option_copied result ≡ export_in exports.now key.now }
{
    match key {
        Key::Iterator => None,
        Key::Text(units) => text_in(exports, units),
    }
}

#[tactic(auto, using(crate::proofs::Numbered::export_none, crate::proofs::Numbered::export_some))]
fn export_numbered<'s, 'a>(
    namespaces: &'s Table<Items<Exported<'a>>>,
    number: usize,
    key: &Key,
) -> Option<&'s Exported<'a>>
    ensures { option_copied result ≡ export_in (slice_index_or namespaces.now number []) key.now }
{
    match namespaces.get(number) {
        None => None,
        Some(exports) => export_in(exports.as_slice(), key),
    }
}

/// The name of this key that an object of this class has, if it is a namespace object that has one.
#[tactic(auto, using(crate::proofs::Numbered::no_export))]
fn export_at<'s, 'a, W: PendingWork<'a>>(
    st: &'s State<'a, W>,
    class: &Class,
    key: &Key,
) -> Option<&'s Exported<'a>>
    ensures { option_copied result ≡ export_in (exports_at (state_of W.seen st.now) class.now) key.now }
{
    match class {
        Class::Namespace(number) => export_numbered(&st.namespaces, *number, key),
        _ => None,
    }
}

/// What the binding of an export holds.
fn binding_held<'a, W: PendingWork<'a>>(
    exported: &Exported<'a>,
    st: &State<'a, W>,
) -> Result<Held<'a>, AllocError>
    ensures { IfOk result (λ held. held ≡ binding_held (state_of W.seen st.now) exported.now) }
{
    share_held_by(&Held::Imported(exported.home, exported.local.share()), st)
}

fn found<'a, W: PendingWork<'a>>(
    id: ObjId,
    key: &Key,
    st: &State<'a, W>,
) -> Result<Option<Held<'a>>, AllocError>
    ensures { IfOk result (λ held. held ≡ held_of (state_of W.seen st.now) id key.now) }
{
    match export_at(st, st.heap.class(id), key) {
        None => Ok(None),
        Some(exported) => Ok(Some(binding_held(exported, st)?)),
    }
}

fn read_binding<'a, W: PendingWork<'a>>(
    alloc: Global,
    id: ObjId,
    key: &Key,
    st: &mut State<'a, W>,
) -> Moved<'a>
    ensures { Steps W.seen result st.new (read_out false id key.now (state_of W.seen st.old)) }
{
    match found(id, key, st)? {
        None => Ok(Move::give(Value::Undefined)),
        Some(held) => read_held(alloc, held, st),
    }
}

fn read_presence<'a, W: PendingWork<'a>>(id: ObjId, key: &Key, st: &State<'a, W>) -> Moved<'a>
    ensures { Steps W.seen result st.now (read_out true id key.now (state_of W.seen st.now)) }
{
    let there = export_at(st, st.heap.class(id), key).is_some();
    Ok(Move::give(Value::Bool(there)))
}

/// Reads a name of a namespace object, or whether it is there.
pub fn read_out<'a, W: PendingWork<'a>>(
    alloc: Global,
    presence: bool,
    id: ObjId,
    key: &Key,
    st: &mut State<'a, W>,
) -> Moved<'a>
    ensures { Steps W.seen result st.new (read_out presence id key.now (state_of W.seen st.old)) }
{
    if presence {
        read_presence(id, key, st)
    } else {
        read_binding(alloc, id, key, st)
    }
}
