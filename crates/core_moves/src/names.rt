//! Names (ECMA-262, 6th edition, 8.1; 5.1 edition, 10.2).

ghost use Rattle.std.specs.Prelude.{◌≡◌, ◌<◌, Some, IfOk, OnOk, length, reverse, slice_get};
ghost use Rattle.std.specs.Option.{option_copied, option_map};
ghost use Rattle.core_meaning.specs.Names.{binding_in, initialized, record_at, resolve, resolved, stored_at, with_value};
ghost use Rattle.core_meaning.specs.State.{Binding};
ghost use Rattle.core_moves.specs.Names.{holder_of, resolved_of};

use crate::rows::{CoreRows, StateOf};
use core_ast::Var;
use core_state::{Binding, CoreValue, State, Table};
use sqlite_items::Items;
use std::alloc::{AllocError, Global};

/// The first binding of a name in a record.
pub fn binding_in<M>(bindings: &[Binding<M>], var: Var) -> Option<&Binding<M>>
    ensures { option_copied result ≡ binding_in bindings.now var }
{
    for binding in bindings {
        if binding.var.0 == var.0 {
            return Some(binding);
        }
    }
    None
}

/// The record of this number, which has no bindings where there is none.
#[tactic(auto, using(crate::proofs::Scopes::record_none, crate::proofs::Scopes::record_some))]
pub fn record_at<M>(records: &Table<Items<Binding<M>>>, number: usize) -> &[Binding<M>]
    ensures { result.now ≡ record_at records.now number }
{
    match records.get(number) {
        None => &[],
        Some(record) => record.as_slice(),
    }
}

/// A name along the numbers of records, of which the innermost stands last.
#[tactic(auto, using(crate::proofs::Scopes::resolved_take))]
fn resolved<'s, M>(
    records: &'s Table<Items<Binding<M>>>,
    environment: &[usize],
    var: Var,
) -> Option<(usize, &'s Binding<M>)>
    ensures { option_map (λ found. resolved_of found.0 found.1.now) result ≡ resolved records.now (reverse environment.now) var }
{
    let mut count = environment.len();
    'below: while count > 0 {
        count -= 1;
        let number = environment[count];
        if let Some(binding) = binding_in(record_at(records, number), var) {
            return Some((number, binding));
        }
    }
    None
}

/// The innermost record that has the name, by its number, and the binding (8.1.2.1).
#[tactic(auto, unfolding(core_meaning::specs::Names::resolve))]
pub fn resolve<'s, 'a, M, O, W, S>(
    st: &'s State<'a, M, O, W, S>,
    var: Var,
) -> Option<(usize, &'s Binding<M>)>
    ensures { option_map (λ found. resolved_of found.0 found.1.now) result ≡ resolve st.now var }
{
    resolved(&st.records, st.context.environment.as_slice(), var)
}

/// The first binding of the name takes the value.
#[tactic(auto, using(crate::proofs::Scopes::with_value_at))]
pub fn set_value<M: Drop>(bindings: &mut Items<Binding<M>>, var: Var, value: CoreValue<M>)
    ensures { bindings.new ≡ with_value bindings.old var value }
{
    let mut at = 0;
    'names: while at < bindings.len() {
        let binding = &bindings.as_slice()[at];
        if binding.var.0 == var.0 {
            let binding = Binding {
                var: binding.var,
                value,
                mutable: binding.mutable,
            };
            bindings.set(at, binding);
            return;
        }
        at += 1;
    }
}

/// The name takes the value in the record of this number.
#[tactic(auto, using(crate::proofs::Scopes::set_none, crate::proofs::Scopes::set_twice))]
pub fn store<'a, M: Drop, O, W, S>(
    alloc: Global,
    number: usize,
    var: Var,
    value: CoreValue<M>,
    st: &mut State<'a, M, O, W, S>,
)
    ensures { st.new ≡ stored_at number var value st.old }
{
    if let Some(mut record) = st.records.replace(number, Items::new(alloc)) {
        set_value(&mut record, var, value);
        st.records.set(number, record);
    }
}

/// Which record has the name, and whether it may be written.
#[derive(Clone, Copy, Debug, PartialEq, Eq)]
pub struct Holder {
    pub number: usize,
    pub mutable: bool,
}

/// Where a name is held.
pub fn where_held<'a, M, O, W, S>(st: &State<'a, M, O, W, S>, var: Var) -> Option<Holder>
    ensures { result ≡ option_map holder_of (resolve st.now var) }
{
    match resolve(st, var) {
        None => None,
        Some((number, binding)) => Some(Holder {
            number,
            mutable: binding.mutable,
        }),
    }
}

/// Initializes a name, if it is there (8.1.1.1.4).
#[tactic(auto, unfolding(core_meaning::specs::Names::initialized))]
pub fn initialize<'a, M: Drop, O, W, S>(
    alloc: Global,
    var: Var,
    value: CoreValue<M>,
    st: &mut State<'a, M, O, W, S>,
)
    ensures { st.new ≡ initialized var value st.old }
{
    if let Some(holder) = where_held(st, var) {
        store(alloc, holder.number, var, value, st);
    }
}

/// An equal value.
pub fn share_value<'a, R: CoreRows<'a>>(
    rows: &R,
    value: &CoreValue<R::Mark>,
) -> Result<CoreValue<R::Mark>, AllocError>
    ensures { IfOk result (λ shared. shared ≡ value.now) }
{
    match value {
        CoreValue::User(value) => Ok(CoreValue::User(value.share()?)),
        CoreValue::Extra(mark) => Ok(CoreValue::Extra(rows.share(mark)?)),
    }
}

/// The value of a name, if it is bound.
pub fn value_of<'a, R: CoreRows<'a>>(
    rows: &R,
    var: Var,
    st: &StateOf<'a, R>,
) -> Result<Option<CoreValue<R::Mark>>, AllocError>
    ensures { IfOk result (λ value. value ≡ option_map (λ found. found.binding.value) (resolve st.now var)) }
{
    match resolve(st, var) {
        None => Ok(None),
        Some((_, binding)) => Ok(Some(share_value(rows, &binding.value)?)),
    }
}
