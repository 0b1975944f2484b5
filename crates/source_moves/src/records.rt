//! Environment records (ECMA-262, 6th edition, 8.1.1).

ghost use Rattle.std.specs.Prelude.{◌≡◌, [], IfOk, OnOk};
ghost use Rattle.std.specs.Option.{option_copied};
ghost use Rattle.source_meaning.specs.Environments.{copied, record_at, record_of, with_bindings, with_record};
ghost use Rattle.source_moves.specs.Seen.{state_of};

use crate::pending::PendingWork;
use core_state::{Environment, Table};
use es_value::Value;
use source_state::{Binding, EnvironmentRecord, Held, State};
use sqlite_items::Items;
use std::alloc::{AllocError, Global};

/// A new record, which is the innermost of the scope (8.1.2.2).
pub fn enter_record<'a, W: PendingWork<'a>>(
    alloc: Global,
    entered: EnvironmentRecord<'a>,
    st: &mut State<'a, W>,
) -> Result<(), AllocError>
    ensures { OnOk result (state_of W.seen st.new ≡ with_record entered.entry (state_of W.seen st.old)) }
{
    let number = st.records.len();
    st.records.push(entered)?;
    st.context.environment = st.context.environment.with(alloc, number)?;
    Ok(())
}

/// A new record of these names, which is the innermost of the scope.
pub fn enter_bindings<'a, W: PendingWork<'a>>(
    alloc: Global,
    bindings: Items<Binding<'a>>,
    st: &mut State<'a, W>,
) -> Result<(), AllocError>
    ensures { OnOk result (state_of W.seen st.new ≡ with_bindings bindings.entry (state_of W.seen st.old)) }
{
    let record = EnvironmentRecord {
        bindings,
        this: None,
    };
    enter_record(alloc, record, st)
}

/// The `this` of the record of this number, if it has one that is there.
#[tactic(auto, using(crate::proofs::Numbered::record_none, crate::proofs::Numbered::record_some))]
pub fn this_at<'s, 'a>(
    records: &'s Table<EnvironmentRecord<'a>>,
    number: usize,
) -> Option<&'s Value>
    ensures { option_copied result ≡ (record_at records.now number).this }
{
    match records.get(number) {
        None => None,
        Some(record) => record.this.as_ref(),
    }
}

/// An equal binding of the same name.
pub(crate) fn share_held<'a>(held: &Held<'a>) -> Result<Held<'a>, AllocError>
    ensures { IfOk result (λ shared. shared ≡ held.now) }
{
    match held {
        Held::Uninitialized => Ok(Held::Uninitialized),
        Held::Holds(value) => Ok(Held::Holds(value.share()?)),
        Held::Imported(home, local) => Ok(Held::Imported(*home, local.share())),
        Held::OfHost(number) => Ok(Held::OfHost(*number)),
    }
}

fn share_bindings<'a>(
    alloc: Global,
    bindings: &[Binding<'a>],
) -> Result<Items<Binding<'a>>, AllocError>
    ensures { IfOk result (λ list. list ≡ bindings.now) }
{
    let mut list = Items::new(alloc);
    for binding in bindings {
        let held = share_held(&binding.held)?;
        list.push(Binding {
            name: binding.name.share(),
            mutable: binding.mutable,
            held,
        })?;
    }
    Ok(list)
}

pub(crate) fn share_this(this: Option<&Value>) -> Result<Option<Value>, AllocError>
    ensures { IfOk result (λ shared. shared ≡ option_copied this.entry) }
{
    match this {
        None => Ok(None),
        Some(value) => Ok(Some(value.share()?)),
    }
}

/// A record without names.
pub(crate) fn empty_record<'a>(alloc: Global) -> EnvironmentRecord<'a>
    ensures { result ≡ record_of [] }
{
    EnvironmentRecord {
        bindings: Items::new(alloc),
        this: None,
    }
}

fn share_record<'a>(
    alloc: Global,
    entry: &EnvironmentRecord<'a>,
) -> Result<EnvironmentRecord<'a>, AllocError>
    ensures { IfOk result (λ shared. shared ≡ entry.now) }
{
    let bindings = share_bindings(alloc, entry.bindings.as_slice())?;
    let this = share_this(entry.this.as_ref())?;
    Ok(EnvironmentRecord { bindings, this })
}

/// An equal record to that of this number.
#[tactic(auto, using(crate::proofs::Numbered::record_none, crate::proofs::Numbered::record_some))]
fn share_at<'a>(
    alloc: Global,
    records: &Table<EnvironmentRecord<'a>>,
    number: usize,
) -> Result<EnvironmentRecord<'a>, AllocError>
    ensures { IfOk result (λ shared. shared ≡ record_at records.now number) }
{
    match records.get(number) {
        None => Ok(empty_record(alloc)),
        Some(entry) => share_record(alloc, entry),
    }
}

/// A copy of the innermost record takes its place in the scope (13.7.4.9).
pub fn copy_innermost<'a, W: PendingWork<'a>>(
    alloc: Global,
    st: &mut State<'a, W>,
) -> Result<(), AllocError>
    ensures { OnOk result (state_of W.seen st.new ≡ copied (state_of W.seen st.old)) }
{
    let numbers = st.context.environment.as_slice();
    match numbers.split_last() {
        None => {
            let bindings = Items::new(alloc);
            enter_bindings(alloc, bindings, st)
        }
        Some((innermost, outer)) => {
            let record = share_at(alloc, &st.records, *innermost)?;
            let outer = Vec::from_slice(alloc, outer)?;
            st.context.environment = Environment::of(alloc, outer)?;
            enter_record(alloc, record, st)
        }
    }
}
