//! Values of the program among those of a machine.

ghost use Rattle.std.specs.Prelude.{◌≡◌, IfOk};
ghost use Rattle.core_meaning.specs.Expressions.{single, single_user, user_at, user_in};
ghost use Rattle.core_meaning.specs.Rows.{users};

use core_state::{CoreValue, Current};
use es_value::Value;
use sqlite_items::Items;
use std::alloc::{AllocError, Global};

/// The value, if the program sees it.
pub fn user_in<M: Drop>(value: CoreValue<M>) -> Option<Value>
    ensures { result ≡ user_in value }
{
    match value {
        CoreValue::User(value) => Some(value),
        CoreValue::Extra(_) => None,
    }
}

/// The value that an expression is at, if the program sees it.
pub fn user_at<M: Drop>(current: Current<M>) -> Option<Value>
    ensures { result ≡ user_at current }
{
    match current {
        Current::Has(value) => user_in(value),
        _ => None,
    }
}

/// The item of a list of one.
#[tactic(auto, using(crate::proofs::UserLists::single_more))]
pub fn single<T: Drop>(items: Items<T>) -> Option<T>
    ensures { result ≡ single items }
{
    let mut items = items;
    let last = items.pop();
    if items.is_empty() { last } else { None }
}

/// The value of a list of one, if the program sees it.
pub fn single_user<M: Drop>(values: Items<CoreValue<M>>) -> Option<Value>
    ensures { result ≡ single_user values }
{
    match single(values) {
        None => None,
        Some(value) => user_in(value),
    }
}

/// These values, if the program sees all of them.
pub fn users<M>(alloc: Global, values: &[CoreValue<M>]) -> Result<Option<Items<Value>>, AllocError>
    ensures { IfOk result (λ list. list ≡ users values.now) }
{
    let mut list = Items::new(alloc);
    for value in values {
        match value {
            CoreValue::User(value) => list.push(value.share()?)?,
            CoreValue::Extra(_) => return Ok(None),
        }
    }
    Ok(Some(list))
}
