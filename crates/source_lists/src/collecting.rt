//! Lists, part by part (ECMA-262, 6th edition, 12.2.5.2, 12.3.6.1), and what is done with one that is whole.

ghost use Rattle.std.specs.Prelude.{◌≡◌, IfOk, OnOk, is_none};
ghost use Rattle.es6_ast.specs.declared.tree.Argument.{out-Argument};
ghost use Rattle.source_lists.specs.Collecting.{collected_with, part_begun, state_with};
ghost use Rattle.source_meaning.specs.Calls.{construct};
ghost use Rattle.source_meaning.specs.Lists.{begin_part, call_with, collected, hole_added, list_on, list_valued, used};
ghost use Rattle.source_moves.specs.Moves.{Steps};
ghost use Rattle.source_moves.specs.Seen.{state_of};
ghost use Rattle.source_state.specs.Taken.{part_of};

use crate::pending::ListWork;
use es_value::Value;
use es6_ast::Argument;
use source_calls::{CallWork, call_host, construct, construct_parent};
use source_keys::{add_element, add_hole};
use source_moves::{Move, Moved, PendingWork, begin, due, impossible, push};
use source_state::{Callee, Collected, Control, ListPart, ListParts, Listing, Node, State, Use};
use sqlite_items::Items;
use std::alloc::{AllocError, Global};

/// Calls a function, or a host.
fn call_with<'a, W: PendingWork<'a>>(
    alloc: Global,
    callee: Callee,
    args: Items<Value>,
    st: &mut State<'a, W>,
) -> Moved<'a>
    ensures { Steps W.seen result st.new (call_with callee args (state_of W.seen st.old)) }
{
    match callee {
        Callee::Calling(function, receiver) => {
            Ok(Move::Goes(Control::Calls(due(function, receiver, args, None))))
        }
        Callee::Hosting(number) => call_host(alloc, number, args.as_slice(), st),
    }
}

/// Constructs by a function, which is the target too (12.3.3.1.1).
fn construct_with<'a, W: CallWork<'a>>(
    alloc: Global,
    function: Value,
    args: Items<Value>,
    st: &mut State<'a, W>,
) -> Moved<'a>
    ensures { Steps W.seen result st.new (construct function args function (state_of W.seen st.old)) }
{
    let target = function.share()?;
    construct(alloc, function, args, target, st)
}

/// Uses arguments that are whole.
fn used<'a, W: ListWork<'a>>(
    alloc: Global,
    user: Use<'a>,
    args: Items<Value>,
    st: &mut State<'a, W>,
) -> Moved<'a>
    ensures { Steps W.seen result st.new (used user.entry args (state_of W.seen st.old)) }
{
    match user {
        Use::ForCall(callee, wanted, links) => {
            push(st, W::links(wanted, links))?;
            call_with(alloc, callee, args, st)
        }
        Use::ForNew(function) => construct_with(alloc, function, args, st),
        Use::ForSuper => construct_parent(alloc, args, st),
    }
}

/// Goes on with a list that is whole.
fn collected<'a, W: ListWork<'a>>(
    alloc: Global,
    list: Collected<'a>,
    st: &mut State<'a, W>,
) -> Moved<'a>
    ensures { Steps W.seen result st.new (collected list.entry (state_of W.seen st.old)) }
{
    match list {
        Collected::OfArray(id) => Ok(Move::give(Value::Object(id))),
        Collected::OfArguments(user, args) => used(alloc, user, args, st),
    }
}

/// Begins a part that is an argument.
fn begin_argument<'a, W: ListWork<'a>>(
    listing: Listing<'a>,
    argument: &'a Argument,
    st: &mut State<'a, W>,
) -> Moved<'a>
    ensures { Steps W.seen result st.new (begin_part listing.entry (state_of W.seen st.old) (out-Argument argument.now)) }
{
    match argument {
        Argument::Single(x) => begin(W::list_value(listing), Node::of(x), st),
        Argument::Spread { value, .. } => begin(W::spread_part(listing), Node::of(value), st),
    }
}

/// Whether a part is a hole.
fn is_hole(part: &ListPart<'_>) -> bool
    ensures { result ≡ is_none (part_of part.now) }
{
    matches!(part, ListPart::Hole)
}

/// Begins a part; a hole is none.
fn begin_part<'a, W: ListWork<'a>>(
    listing: Listing<'a>,
    part: ListPart<'a>,
    st: &mut State<'a, W>,
) -> Moved<'a>
    ensures { Steps W.seen result st.new (part_begun listing.entry (state_of W.seen st.old) (part_of part.entry)) }
{
    match part {
        ListPart::Hole => impossible(st),
        ListPart::One(argument) => begin_argument(listing, argument.get(), st),
        ListPart::Valued(x) => begin(W::list_value(listing), x, st),
    }
}

/// An array has one hole more.
fn hole_added<'a, W: PendingWork<'a>>(
    alloc: Global,
    list: &Collected<'a>,
    st: &mut State<'a, W>,
) -> Result<(), AllocError>
    ensures { OnOk result (state_of W.seen st.new ≡ hole_added list.now (state_of W.seen st.old)) }
{
    match list {
        Collected::OfArray(id) => add_hole(alloc, &mut st.heap, *id),
        Collected::OfArguments(_, _) => Ok(()),
    }
}

/// The parts that are left.
#[tactic(auto, using(crate::proofs::Parts::hole_step, crate::proofs::Parts::part_step))]
pub fn list_on<'a, W: ListWork<'a>>(
    alloc: Global,
    list: Collected<'a>,
    parts: ListParts<'a>,
    st: &mut State<'a, W>,
) -> Moved<'a>
    ensures { Steps W.seen result st.new (list_on list.entry parts.entry (state_of W.seen st.old)) }
{
    let mut left = parts;
    while let Some((part, rest)) = left.first() {
        if !is_hole(&part) {
            let listing = Listing {
                collected: list,
                rest,
            };
            return begin_part(listing, part, st);
        }
        hole_added(alloc, &list, st)?;
        left = rest;
    }
    collected(alloc, list, st)
}

/// Adds a value to a list.
pub(crate) fn with_added<'a, W: PendingWork<'a>>(
    alloc: Global,
    list: Collected<'a>,
    value: Value,
    st: &mut State<'a, W>,
) -> Result<Collected<'a>, AllocError>
    ensures list { IfOk result (λ c. c ≡ collected_with list.entry value) }
    ensures state { OnOk result (state_of W.seen st.new ≡ state_with list.entry value (state_of W.seen st.old)) }
{
    match list {
        Collected::OfArray(id) => {
            add_element(alloc, &mut st.heap, id, value)?;
            Ok(Collected::OfArray(id))
        }
        Collected::OfArguments(user, args) => {
            let mut args = args;
            args.push(value)?;
            Ok(Collected::OfArguments(user, args))
        }
    }
}

/// The value of a part is there.
#[tactic(auto, using(crate::proofs::Parts::valued))]
pub fn list_valued<'a, W: ListWork<'a>>(
    alloc: Global,
    listing: Listing<'a>,
    value: Value,
    st: &mut State<'a, W>,
) -> Moved<'a>
    ensures { Steps W.seen result st.new (list_valued listing.entry (state_of W.seen st.old) value) }
{
    let Listing { collected, rest } = listing;
    let list = with_added(alloc, collected, value, st)?;
    list_on(alloc, list, rest, st)
}
