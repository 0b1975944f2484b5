//! How names are found and read (ECMA-262, 6th edition, 8.1.2.1, 8.1.1.1.6).

ghost use Rattle.std.specs.Prelude.{◌≡◌, IfOk, reverse};
ghost use Rattle.std.specs.Option.{option_copied, option_map};
ghost use Rattle.source_meaning.specs.Environments.{binding_in, held_by, held_there, host_in, host_named, module_binding, read_global, read_held, read_name, record_at, resolve, resolved};
ghost use Rattle.source_moves.specs.Moves.{Steps};
ghost use Rattle.source_moves.specs.Names.{found_held, held_or, resolved_of};
ghost use Rattle.source_moves.specs.Seen.{state_of};

use crate::moves::{Move, Moved};
use crate::pending::PendingWork;
use crate::records::share_held;
use crate::states::{impossible, leave, raise};
use core_state::Table;
use es_calls::ErrorKind;
use es_realm::{Global as Word, global_of};
use es_value::Value;
use source_state::{Binding, BorrowedName, EnvironmentRecord, Held, State};
use std::alloc::{AllocError, Global};

/// The first binding of a name.
pub fn binding_in<'s, 'a>(bindings: &'s [Binding<'a>], name: &[u8]) -> Option<&'s Binding<'a>>
    ensures { option_copied result ≡ binding_in bindings.now name.now }
{
    for binding in bindings {
        if binding.name.bytes() == name {
            return Some(binding);
        }
    }
    None
}

/// The first binding of a name in the record of this number, if there is one.
#[tactic(auto, using(crate::proofs::Numbered::record_none, crate::proofs::Numbered::record_some))]
pub fn binding_at<'s, 'a>(
    records: &'s Table<EnvironmentRecord<'a>>,
    number: usize,
    name: &[u8],
) -> Option<&'s Binding<'a>>
    ensures { option_copied result ≡ binding_in (record_at records.now number).bindings name.now }
{
    match records.get(number) {
        None => None,
        Some(entry) => binding_in(entry.bindings.as_slice(), name),
    }
}

/// A name along the numbers of records, of which the innermost stands last.
#[tactic(auto, using(crate::proofs::Scopes::resolved_take))]
fn resolved<'s, 'a>(
    records: &'s Table<EnvironmentRecord<'a>>,
    environment: &[usize],
    name: &[u8],
) -> Option<(usize, &'s Binding<'a>)>
    ensures { option_map (λ found. resolved_of found.0 found.1.now) result ≡ resolved records.now (reverse environment.now) name.now }
{
    let mut count = environment.len();
    'below: while count > 0 {
        count -= 1;
        let number = environment[count];
        if let Some(binding) = binding_at(records, number, name) {
            return Some((number, binding));
        }
    }
    None
}

/// The innermost record that has the name, by its number, and the binding (8.1.2.1).
#[tactic(auto, unfolding(source_meaning::specs::Environments::resolve))]
pub fn resolve<'s, 'a, W: PendingWork<'a>>(
    st: &'s State<'a, W>,
    name: &[u8],
) -> Option<(usize, &'s Binding<'a>)>
    ensures { option_map (λ found. resolved_of found.0 found.1.now) result ≡ resolve (state_of W.seen st.now) name.now }
{
    resolved(&st.records, st.context.environment.as_slice(), name)
}

/// What a name of a module is bound to; None where nothing is there yet.
fn module_held<'s, 'a>(
    records: &'s Table<EnvironmentRecord<'a>>,
    home: u32,
    local: &BorrowedName<'a>,
) -> Option<&'s Held<'a>>
    ensures { held_or (option_copied result) ≡ module_binding records.now home local.now }
{
    match binding_at(records, home as usize, local.bytes()) {
        None => None,
        Some(binding) => Some(&binding.held),
    }
}

/// One step from an import to the binding of the other module (8.1.1.5.1).
fn held_there<'s, 'a>(
    records: &'s Table<EnvironmentRecord<'a>>,
    held: &'s Held<'a>,
) -> Option<&'s Held<'a>>
    ensures { held_or (option_copied result) ≡ held_there records.now held.now }
{
    match held {
        Held::Imported(home, local) => module_held(records, *home, local),
        _ => Some(held),
    }
}

/// What a binding holds, also where it is an import, whose other module may have it by an import itself; None where nothing is there
/// yet.
pub fn held_by<'s, 'a>(
    records: &'s Table<EnvironmentRecord<'a>>,
    held: &'s Held<'a>,
) -> Option<&'s Held<'a>>
    ensures { held_or (option_copied result) ≡ held_by records.now held.now }
{
    match held_there(records, held) {
        None => None,
        Some(held) => held_there(records, held),
    }
}

/// What a binding holds, also where it is an import.
pub fn share_held_by<'a, W: PendingWork<'a>>(
    held: &Held<'a>,
    st: &State<'a, W>,
) -> Result<Held<'a>, AllocError>
    ensures { IfOk result (λ shared. shared ≡ held_by st.now.records held.now) }
{
    share_or(held_by(&st.records, held))
}

fn share_or<'a>(held: Option<&Held<'a>>) -> Result<Held<'a>, AllocError>
    ensures { IfOk result (λ shared. shared ≡ held_or (option_copied held.entry)) }
{
    match held {
        None => Ok(Held::Uninitialized),
        Some(held) => share_held(held),
    }
}

/// What is found of a name, if it is bound.
pub fn find<'a, W: PendingWork<'a>>(
    name: &[u8],
    st: &State<'a, W>,
) -> Result<Option<Held<'a>>, AllocError>
    ensures { IfOk result (λ found. found ≡ option_map (found_held (state_of W.seen st.now)) (resolve (state_of W.seen st.now) name.now)) }
{
    match resolve(st, name) {
        None => Ok(None),
        Some((_, binding)) => Ok(Some(share_held_by(&binding.held, st)?)),
    }
}

/// Reads what a binding holds.
pub fn read_held<'a, W: PendingWork<'a>>(
    alloc: Global,
    held: Held<'a>,
    st: &mut State<'a, W>,
) -> Moved<'a>
    ensures { Steps W.seen result st.new (read_held held.entry (state_of W.seen st.old)) }
{
    match held {
        Held::Holds(value) => Ok(Move::give(value)),
        Held::Uninitialized => raise(alloc, ErrorKind::ReferenceError, st),
        _ => impossible(st),
    }
}

/// Reads a name that no record has.
fn read_global<'a, W: PendingWork<'a>>(
    alloc: Global,
    word: Word,
    st: &mut State<'a, W>,
) -> Moved<'a>
    ensures { Steps W.seen result st.new (read_global word (state_of W.seen st.old)) }
{
    match word {
        Word::Undefined => Ok(Move::give(Value::Undefined)),
        Word::Object(id) => Ok(Move::give(Value::Object(id))),
        Word::LeftOut => leave(st, 7),
        Word::Unknown => raise(alloc, ErrorKind::ReferenceError, st),
    }
}

/// Reads a name (8.1.1.1.6).
#[tactic(auto, using(crate::proofs::Scopes::read_none), unfolding(source_meaning::specs::Environments::read_name))]
pub fn read_name<'a, W: PendingWork<'a>>(
    alloc: Global,
    name: &[u8],
    st: &mut State<'a, W>,
) -> Moved<'a>
    ensures { Steps W.seen result st.new (read_name name.now (state_of W.seen st.old)) }
{
    match find(name, st)? {
        None => read_global(alloc, global_of(name), st),
        Some(held) => read_held(alloc, held, st),
    }
}

fn host_in<'a>(held: Option<&Held<'a>>) -> Option<usize>
    ensures { result ≡ host_in (held_or (option_copied held.entry)) }
{
    match held {
        Some(Held::OfHost(number)) => Some(*number),
        _ => None,
    }
}

/// The host that a name is of, if it is one of the host's.
pub fn host_named<'a, W: PendingWork<'a>>(name: &[u8], st: &State<'a, W>) -> Option<usize>
    ensures { result ≡ host_named name.now (state_of W.seen st.now) }
{
    match resolve(st, name) {
        None => None,
        Some((_, binding)) => host_in(held_by(&st.records, &binding.held)),
    }
}
