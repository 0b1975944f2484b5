//! How names are written and initialized (ECMA-262, 6th edition, 8.1.1.1.4, 8.1.1.1.5).

ghost use Rattle.std.specs.Prelude.{◌≡◌};
ghost use Rattle.std.specs.Option.{option_map};
ghost use Rattle.source_meaning.specs.Environments.{initialized, resolve, stored_at, with_held, write_name};
ghost use Rattle.source_meaning.specs.Steps.{gives};
ghost use Rattle.source_moves.specs.Moves.{Steps};
ghost use Rattle.source_moves.specs.Names.{holder_of, is_initialized, written_at};
ghost use Rattle.source_moves.specs.Seen.{state_of};

use crate::moves::{Move, Moved};
use crate::names::resolve;
use crate::pending::PendingWork;
use crate::records::empty_record;
use crate::states::raise;
use es_calls::ErrorKind;
use es_value::Value;
use source_state::{Binding, Held, State};
use sqlite_items::Items;
use std::alloc::Global;

/// Which record has a name, and whether the name may be written.
#[derive(Clone, Copy, Debug, PartialEq, Eq)]
pub struct Holder {
    pub number: usize,
    pub mutable: bool,
    pub is_initialized: bool,
}

fn is_initialized<'a>(held: &Held<'a>) -> bool
    ensures { result ≡ is_initialized held.now }
{
    !matches!(held, Held::Uninitialized)
}

/// Where a name is held.
pub fn where_held<'a, W: PendingWork<'a>>(st: &State<'a, W>, name: &[u8]) -> Option<Holder>
    ensures { result ≡ option_map holder_of (resolve (state_of W.seen st.now) name.now) }
{
    match resolve(st, name) {
        None => None,
        Some((number, binding)) => Some(Holder {
            number,
            mutable: binding.mutable,
            is_initialized: is_initialized(&binding.held),
        }),
    }
}

/// The first binding of the name holds the value.
#[tactic(auto, using(crate::proofs::Scopes::with_held_at))]
fn set_held<'a>(bindings: &mut Items<Binding<'a>>, name: &[u8], value: Value)
    ensures { bindings.new ≡ with_held bindings.old name.now value }
{
    let mut at = 0;
    'names: while at < bindings.len() {
        let binding = &bindings.as_slice()[at];
        if binding.name.bytes() == name {
            let binding = Binding {
                name: binding.name.share(),
                mutable: binding.mutable,
                held: Held::Holds(value),
            };
            bindings.set(at, binding);
            return;
        }
        at += 1;
    }
}

/// The name holds the value in the record of this number.
#[tactic(auto, using(crate::proofs::Numbered::set_none, crate::proofs::Numbered::held_twice))]
fn store<'a, W: PendingWork<'a>>(
    alloc: Global,
    number: usize,
    name: &[u8],
    value: Value,
    st: &mut State<'a, W>,
)
    ensures { state_of W.seen st.new ≡ stored_at number name.now value (state_of W.seen st.old) }
{
    if let Some(mut record) = st.records.replace(number, empty_record(alloc)) {
        set_held(&mut record.bindings, name, value);
        st.records.set(number, record);
    }
}

/// Initializes a name, if it is there (8.1.1.1.4).
#[tactic(auto, unfolding(source_meaning::specs::Environments::initialized))]
pub fn initialize<'a, W: PendingWork<'a>>(
    alloc: Global,
    name: &[u8],
    value: Value,
    st: &mut State<'a, W>,
)
    ensures { state_of W.seen st.new ≡ initialized name.now value (state_of W.seen st.old) }
{
    if let Some(holder) = where_held(st, name) {
        store(alloc, holder.number, name, value, st);
    }
}

/// Writes to a name that a record has, and gives a value.
fn write_at<'a, W: PendingWork<'a>>(
    alloc: Global,
    holder: Holder,
    name: &[u8],
    value: Value,
    given: Value,
    st: &mut State<'a, W>,
) -> Moved<'a>
    ensures { Steps W.seen result st.new (written_at holder name.now value (state_of W.seen st.old) (gives given)) }
{
    if !holder.is_initialized {
        return raise(alloc, ErrorKind::ReferenceError, st);
    }
    if !holder.mutable {
        return raise(alloc, ErrorKind::TypeError, st);
    }
    store(alloc, holder.number, name, value, st);
    Ok(Move::give(given))
}

/// Writes to a name (8.1.1.1.5), and gives a value.
#[tactic(auto, using(crate::proofs::Scopes::written_none, crate::proofs::Scopes::written_some), unfolding(source_meaning::specs::Environments::write_name))]
pub fn write_name<'a, W: PendingWork<'a>>(
    alloc: Global,
    name: &[u8],
    value: Value,
    given: Value,
    st: &mut State<'a, W>,
) -> Moved<'a>
    ensures { Steps W.seen result st.new (write_name name.now value (state_of W.seen st.old) (gives given)) }
{
    match where_held(st, name) {
        None => raise(alloc, ErrorKind::ReferenceError, st),
        Some(holder) => write_at(alloc, holder, name, value, given, st),
    }
}
