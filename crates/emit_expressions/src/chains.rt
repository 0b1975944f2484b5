//! Accesses and calls (ECMA-262, 5.1 edition, 11.2): one more of a chain, or the first of one.

ghost use Rattle.std.specs.Prelude.{◌≡◌, ◌∷◌, ◌++◌, [], IfOk, OnOk};
ghost use Rattle.emission_rules.specs.Nodes.{applied, called, called_by, chained, from_name, index, member, nowhere};
ghost use Rattle.es5_ast.specs.declared.tree.Expr5.TheVariants as expr;
ghost use Rattle.es5_ast.specs.declared.tree.Link5.TheVariants as link;

use crate::leaves::{name, nowhere};
use es_outside::Site;
use es_text::Span;
use es5_ast::{Expr5, Link5};
use es5_nodes::lists::push;
use es5_nodes::parts;
use shared_text::Name;
use sqlite_items::{Boxed, Items};
use std::alloc::{AllocError, Global};

fn chain(
    alloc: Global,
    span: Span,
    head: Boxed<Expr5>,
    links: Items<Link5>,
) -> Result<Boxed<Expr5>, AllocError>
    ensures { IfOk result (λ x. x ≡ expr.Chain span head links) }
{
    Boxed::new(alloc, Expr5::Chain { span, head, links })
}

fn extended(
    alloc: Global,
    span: Span,
    head: Boxed<Expr5>,
    links: Items<Link5>,
    link: Boxed<Link5>,
) -> Result<Boxed<Expr5>, AllocError>
    ensures { IfOk result (λ x. x ≡ expr.Chain span head (links ++ link ∷ [])) }
{
    let mut links = links;
    push(&mut links, link)?;
    chain(alloc, span, head, links)
}

fn begun(alloc: Global, head: Boxed<Expr5>, link: Boxed<Link5>) -> Result<Boxed<Expr5>, AllocError>
    ensures { IfOk result (λ x. x ≡ expr.Chain nowhere head (link ∷ [])) }
{
    extended(alloc, nowhere(), head, Items::new(alloc), link)
}

/// The expression with one access or call more.
#[tactic(auto, unfolding(emission_rules::specs::Nodes::chained))]
pub fn chained(
    alloc: Global,
    value: Boxed<Expr5>,
    link: Boxed<Link5>,
) -> Result<Boxed<Expr5>, AllocError>
    ensures { IfOk result (λ x. x ≡ chained value link) }
{
    match value.into_inner() {
        Expr5::Chain { span, head, links } => extended(alloc, span, head, links, link),
        value => begun(alloc, Boxed::new(alloc, value)?, link),
    }
}

fn member_link(alloc: Global, text: &[u8]) -> Result<Boxed<Link5>, AllocError>
    ensures { IfOk result (λ x. x ≡ link.Member nowhere text.now) }
{
    let name = Name::of_bytes(alloc, text)?;
    parts::member(alloc, nowhere(), name)
}

fn call_link(
    alloc: Global,
    arguments: Items<Expr5>,
    site: Option<Site>,
) -> Result<Boxed<Link5>, AllocError>
    ensures { IfOk result (λ x. x ≡ link.Call nowhere arguments site) }
{
    let span = nowhere();
    Boxed::new(
        alloc,
        Link5::Call {
            span,
            arguments,
            site,
        },
    )
}

/// The property with this name, from its bytes.
pub fn member(alloc: Global, value: Boxed<Expr5>, text: &[u8]) -> Result<Boxed<Expr5>, AllocError>
    ensures { IfOk result (λ x. x ≡ member value text.now) }
{
    let link = member_link(alloc, text)?;
    chained(alloc, value, link)
}

/// The property with this key.
pub fn index(
    alloc: Global,
    value: Boxed<Expr5>,
    at: Boxed<Expr5>,
) -> Result<Boxed<Expr5>, AllocError>
    ensures { IfOk result (λ x. x ≡ index value at) }
{
    let link = parts::index(alloc, nowhere(), at)?;
    chained(alloc, value, link)
}

/// A call, with the place of the source from which it comes.
pub fn called(
    alloc: Global,
    value: Boxed<Expr5>,
    arguments: Items<Expr5>,
    site: Option<Site>,
) -> Result<Boxed<Expr5>, AllocError>
    ensures { IfOk result (λ x. x ≡ called value arguments site) }
{
    let link = call_link(alloc, arguments, site)?;
    chained(alloc, value, link)
}

fn from_name(alloc: Global, text: &[u8], links: Items<Link5>) -> Result<Boxed<Expr5>, AllocError>
    ensures { IfOk result (λ x. x ≡ from_name text.now links) }
{
    let head = name(alloc, text)?;
    chain(alloc, nowhere(), head, links)
}

/// A call of what has this name, from its bytes.
pub fn applied(
    alloc: Global,
    text: &[u8],
    arguments: Items<Expr5>,
) -> Result<Boxed<Expr5>, AllocError>
    ensures { IfOk result (λ x. x ≡ applied text.now arguments) }
{
    let mut links = Items::new(alloc);
    push(&mut links, call_link(alloc, arguments, None)?)?;
    from_name(alloc, text, links)
}

/// A call of the method `call` of the function with this name (15.3.4.3, 15.3.4.4).
pub fn called_by(
    alloc: Global,
    text: &[u8],
    arguments: Items<Expr5>,
    site: Option<Site>,
) -> Result<Boxed<Expr5>, AllocError>
    ensures { IfOk result (λ x. x ≡ called_by text.now arguments site) }
{
    let mut links = Items::new(alloc);
    push(&mut links, member_link(alloc, b"call")?)?;
    push(&mut links, call_link(alloc, arguments, site)?)?;
    from_name(alloc, text, links)
}
