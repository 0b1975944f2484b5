//! `[Symbol.iterator]` as a key, where no scope has the name `Symbol` (ECMA-262, 6th edition, 12.2.6.8).

ghost use Rattle.std.specs.Prelude.{◌≡◌};
ghost use Rattle.es6_ast.specs.declared.tree.Expression.{out-Expression};
ghost use Rattle.es6_ast.specs.declared.tree.Link.{out-Link};
ghost use Rattle.source_meaning.specs.References.{is_iterator_key};
ghost use Rattle.source_meaning.specs.Trees.{are_iterator_links, is_iterator_link, is_symbol_iterator, is_symbol_name};
ghost use Rattle.source_moves.specs.Seen.{state_of};

use crate::names::resolve;
use crate::pending::PendingWork;
use es6_ast::{Expression, Link};
use source_state::State;

fn is_symbol_name(x: &Expression) -> bool
    ensures { result ≡ is_symbol_name (out-Expression x.now) }
{
    match x {
        Expression::Name { name, .. } => b"Symbol".as_slice() == name.bytes(),
        _ => false,
    }
}

fn is_iterator_link(link: &Link) -> bool
    ensures { result ≡ is_iterator_link (out-Link link.now) }
{
    match link {
        Link::Member { name, .. } => b"iterator".as_slice() == name.name.bytes(),
        _ => false,
    }
}

fn are_iterator_links(links: &[Link]) -> bool
    ensures { result ≡ are_iterator_links links.now }
{
    match links.split_first() {
        None => false,
        Some((first, rest)) => rest.is_empty() && is_iterator_link(first),
    }
}

fn is_symbol_iterator(x: &Expression) -> bool
    ensures { result ≡ is_symbol_iterator (out-Expression x.now) }
{
    match x {
        Expression::Chain { head, links, .. } => {
            is_symbol_name(head.get()) && are_iterator_links(links.as_slice())
        }
        _ => false,
    }
}

/// Whether an expression in brackets names the iterator key.
pub fn is_iterator_key<'a, W: PendingWork<'a>>(x: &Expression, st: &State<'a, W>) -> bool
    ensures { result ≡ is_iterator_key x.now (state_of W.seen st.now) }
{
    is_symbol_iterator(x) && resolve(st, b"Symbol").is_none()
}
