//! The static members that a class inherits, which are fixed when it is defined: those that the parent's definition made and the parent
//! still has, and those that were recorded for the parent.

ghost use Rattle.std.specs.Prelude.{◌≡◌, ◌++◌, ◌∷◌, [], IfOk, OnOk};
ghost use Rattle.std.specs.List.{filter_map};
ghost use Rattle.source_objects.specs.Inherited.{is_there, recorded_of};
ghost use Rattle.source_meaning.specs.Classes.{recorded_for, still_there};
ghost use Rattle.source_moves.specs.Seen.{state_of};

use es_heap::{Heap, Key};
use es_value::{ObjId, Value};
use source_moves::PendingWork;
use source_state::{State, Static};
use sqlite_items::Items;
use std::alloc::{AllocError, Global};

/// Whether it is a static member of this parent, which still has it.
fn is_there(heap: &Heap, parent: ObjId, member: &Static) -> bool
    ensures { result ≡ is_there heap.now parent member.now }
{
    member.class.0 == parent.0 && heap.get_own(parent, &member.key).is_some()
}

/// One static member more, if the parent still has it.
fn push_if_there(
    keys: &mut Items<Key>,
    heap: &Heap,
    parent: ObjId,
    member: &Static,
) -> Result<(), AllocError>
    ensures { OnOk result (keys.new ≡ keys.old ++ filter_map (still_there heap.now parent) (member.now ∷ [])) }
{
    if is_there(heap, parent, member) {
        keys.push(member.key.share()?)?;
    }
    Ok(())
}

/// The static members that the parent's definition made, and the parent still has.
fn made_there(
    alloc: Global,
    heap: &Heap,
    parent: ObjId,
    members: &[Static],
) -> Result<Items<Key>, AllocError>
    ensures { IfOk result (λ keys. keys ≡ filter_map (still_there heap.now parent) members.now) }
{
    let mut keys = Items::new(alloc);
    for member in members {
        push_if_there(&mut keys, heap, parent, member)?;
    }
    Ok(keys)
}

fn push_keys(keys: &mut Items<Key>, more: &[Key]) -> Result<(), AllocError>
    ensures { OnOk result (keys.new ≡ keys.old ++ more.now) }
{
    for key in more {
        keys.push(key.share()?)?;
    }
    Ok(())
}

fn recorded_of<'a, W: PendingWork<'a>>(
    alloc: Global,
    parent: ObjId,
    st: &State<'a, W>,
) -> Result<Items<Key>, AllocError>
    ensures { IfOk result (λ keys. keys ≡ recorded_of (state_of W.seen st.now) parent) }
{
    let mut keys = made_there(alloc, &st.heap, parent, st.statics.as_slice())?;
    push_keys(&mut keys, st.heap.recorded(parent))?;
    Ok(keys)
}

/// What is recorded for a class with this heritage.
pub(crate) fn recorded_for<'a, W: PendingWork<'a>>(
    alloc: Global,
    heritage: &Value,
    st: &State<'a, W>,
) -> Result<Items<Key>, AllocError>
    ensures { IfOk result (λ keys. keys ≡ recorded_for (state_of W.seen st.now) heritage.now) }
{
    match heritage {
        Value::Object(parent) => recorded_of(alloc, *parent, st),
        _ => Ok(Items::new(alloc)),
    }
}
