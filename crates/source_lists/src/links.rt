//! Chains, link by link (ECMA-262, 6th edition, 12.3). A reference is read where its value is asked for.

ghost use Rattle.std.specs.Prelude.{◌≡◌, ◌∷◌};
ghost use Rattle.es6_ast.specs.declared.tree.Link.{out-Link};
ghost use Rattle.source_meaning.specs.Lists.{end_of_links, index_link, linked, member_link, one_link, with_current};
ghost use Rattle.source_meaning.specs.Trees.{name_units};
ghost use Rattle.source_moves.specs.Moves.{Steps};
ghost use Rattle.source_moves.specs.Seen.{state_of};

use crate::accessors::{index_link, member_link};
use crate::passing::call_link;
use crate::pending::ListWork;
use es6_ast::{Expression, Link};
use source_moves::{Move, Moved, PendingWork, get_value, impossible, read};
use source_state::{Completion, Node, Nodes, Passing, State};
use std::alloc::Global;

/// `.k` where the chain is; `whole` are the links with this one.
fn member_at<'a, W: ListWork<'a>>(
    alloc: Global,
    name: &[u8],
    wanted: bool,
    links: Nodes<'a, Link>,
    whole: Nodes<'a, Link>,
    completion: Completion<'a>,
    st: &mut State<'a, W>,
) -> Moved<'a>
    ensures { Steps W.seen result st.new (with_current wanted whole.entry (state_of W.seen st.old) completion.entry (member_link (name_units name.now) wanted links.entry (state_of W.seen st.old))) }
{
    match completion {
        Completion::Gives(base) => member_link(alloc, name, wanted, links, base, st),
        Completion::Refers(reference) => read(alloc, W::links(wanted, whole), reference, st),
        _ => impossible(st),
    }
}

/// `[k]` where the chain is; `whole` are the links with this one.
fn index_at<'a, W: ListWork<'a>>(
    alloc: Global,
    x: &'a Expression,
    wanted: bool,
    links: Nodes<'a, Link>,
    whole: Nodes<'a, Link>,
    completion: Completion<'a>,
    st: &mut State<'a, W>,
) -> Moved<'a>
    ensures { Steps W.seen result st.new (with_current wanted whole.entry (state_of W.seen st.old) completion.entry (index_link x.now wanted links.entry (state_of W.seen st.old))) }
{
    match completion {
        Completion::Gives(base) => index_link(alloc, x, wanted, links, base, st),
        Completion::Refers(reference) => read(alloc, W::links(wanted, whole), reference, st),
        _ => impossible(st),
    }
}

/// One link; `whole` are the links with it.
fn one_link<'a, W: ListWork<'a>>(
    alloc: Global,
    link: &'a Link,
    wanted: bool,
    links: Nodes<'a, Link>,
    whole: Nodes<'a, Link>,
    completion: Completion<'a>,
    st: &mut State<'a, W>,
) -> Moved<'a>
    requires { whole ≡ link.now ∷ links }
    ensures { Steps W.seen result st.new (one_link link.now wanted links.entry (state_of W.seen st.old) completion.entry (out-Link link.now)) }
{
    match link {
        Link::Member { name, .. } => {
            member_at(
                alloc,
                name.name.bytes(),
                wanted,
                links,
                whole,
                completion,
                st,
            )
        }
        Link::Index { index, .. } => index_at(alloc, index, wanted, links, whole, completion, st),
        Link::Call { arguments, .. } => {
            let passing = Passing::PassesArguments(Nodes::of(arguments));
            call_link(alloc, passing, wanted, links, completion, st)
        }
        Link::Tagged(template) => {
            let passing = Passing::PassesTemplate(Node::of(template));
            call_link(alloc, passing, wanted, links, completion, st)
        }
    }
}

/// Hands on what the chain is behind its last link; where no reference is wanted it is read.
fn end_of_links<'a, W: PendingWork<'a>>(
    alloc: Global,
    wanted: bool,
    completion: Completion<'a>,
    st: &mut State<'a, W>,
) -> Moved<'a>
    ensures { Steps W.seen result st.new (end_of_links wanted (state_of W.seen st.old) completion.entry) }
{
    if wanted {
        return Ok(Move::hand(completion));
    }
    match completion {
        Completion::Refers(reference) => get_value(alloc, reference, st),
        completion => Ok(Move::hand(completion)),
    }
}

/// The links that are left.
#[tactic(auto, unfolding(source_meaning::specs::Lists::linked))]
pub fn linked<'a, W: ListWork<'a>>(
    alloc: Global,
    wanted: bool,
    links: Nodes<'a, Link>,
    completion: Completion<'a>,
    st: &mut State<'a, W>,
) -> Moved<'a>
    ensures { Steps W.seen result st.new (linked wanted links.entry (state_of W.seen st.old) completion.entry) }
{
    match links.first() {
        None => end_of_links(alloc, wanted, completion, st),
        Some((link, rest)) => one_link(alloc, link, wanted, rest, links, completion, st),
    }
}
