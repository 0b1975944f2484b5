//! Boxes and lists of children. What is made beside a box is let go where memory runs out.

ghost use Rattle.std.specs.Prelude.{◌≡◌, ◌++◌, ◌∷◌, [], IfOk, OnOk};

use sqlite_items::{Boxed, Items};
use std::alloc::{AllocError, Global};

/// One child, and what stands beside it in its node.
pub fn boxed_beside<A: Drop, B: Drop>(
    alloc: Global,
    child: A,
    beside: B,
) -> Result<(Boxed<A>, B), AllocError>
    ensures { IfOk result (λ made. made ≡ (child, beside)) }
{
    Ok((Boxed::new(alloc, child)?, beside))
}

/// A child that may be absent, and what stands beside it in its node.
pub fn boxed_option_beside<A: Drop, B: Drop>(
    alloc: Global,
    child: Option<A>,
    beside: B,
) -> Result<(Option<Boxed<A>>, B), AllocError>
    ensures { IfOk result (λ made. made ≡ (child, beside)) }
{
    match child {
        Some(child) => Ok((Some(Boxed::new(alloc, child)?), beside)),
        None => Ok((None, beside)),
    }
}

pub fn both_boxed<A: Drop, B: Drop>(
    alloc: Global,
    first: A,
    second: B,
) -> Result<(Boxed<A>, Boxed<B>), AllocError>
    ensures { IfOk result (λ made. made ≡ (first, second)) }
{
    Ok((Boxed::new(alloc, first)?, Boxed::new(alloc, second)?))
}

/// Two children, and what stands beside them in their node.
pub fn both_boxed_beside<A: Drop, B: Drop, C: Drop>(
    alloc: Global,
    first: A,
    second: B,
    beside: C,
) -> Result<((Boxed<A>, Boxed<B>), C), AllocError>
    ensures { IfOk result (λ made. made ≡ ((first, second), beside)) }
{
    Ok((both_boxed(alloc, first, second)?, beside))
}

pub fn three_boxed<A: Drop, B: Drop, C: Drop>(
    alloc: Global,
    first: A,
    second: B,
    third: C,
) -> Result<(Boxed<A>, Boxed<B>, Boxed<C>), AllocError>
    ensures { IfOk result (λ made. made ≡ (first, second, third)) }
{
    Ok((
        Boxed::new(alloc, first)?,
        Boxed::new(alloc, second)?,
        Boxed::new(alloc, third)?,
    ))
}

/// Puts an item behind the others. An empty list makes room for one, since most blocks hold no more, where a list by itself makes
/// room for four.
pub fn push_one<A: Drop>(alloc: Global, list: &mut Items<A>, item: A) -> Result<(), AllocError>
    ensures { OnOk result (list.new ≡ list.old ++ item ∷ []) }
{
    if list.is_empty() {
        *list = Items::from_vec(Vec::with_capacity(alloc, 1)?);
    }
    list.push(item)
}
