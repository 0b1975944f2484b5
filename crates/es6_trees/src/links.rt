//! The trees of accesses and calls.

use crate::Trees;
use crate::boxes::boxed_beside;
use crate::reading::Reading;
use es_text::Span;
use es6_ast::{Argument, Expression, Identifier, Link, Template};
use es6_makers::MakesLinks;
use sqlite_items::{Boxed, Items};
use std::alloc::{AllocError, Global};

impl MakesLinks for Trees {
    type Link = Link;

    type Links = Items<Link>;

    ghost seen_link = { λ x. x };

    ghost seen_links = { λ x. x };

    fn super_member(span: Span, name: Identifier) -> Reading {
        Reading::left(Expression::SuperMember { span, name })
    }

    fn super_index(alloc: Global, span: Span, index: Reading) -> Result<Reading, AllocError> {
        let index = Boxed::new(alloc, index.into_value())?;
        Ok(Reading::left(Expression::SuperIndex { span, index }))
    }

    fn super_call(span: Span, arguments: Items<Argument>) -> Reading {
        Reading::left(Expression::SuperCall { span, arguments })
    }

    fn new_target(span: Span) -> Reading {
        Reading::left(Expression::NewTarget { span })
    }

    fn new_expression(
        alloc: Global,
        span: Span,
        callee: Reading,
        arguments: Items<Argument>,
    ) -> Result<Reading, AllocError> {
        let (callee, arguments) = boxed_beside(alloc, callee.into_value(), arguments)?;
        Ok(Reading::left(Expression::New {
            span,
            callee,
            arguments,
        }))
    }

    fn member_link(span: Span, name: Identifier) -> Link {
        Link::Member { span, name }
    }

    fn index_link(span: Span, index: Reading) -> Link {
        Link::Index {
            span,
            index: index.into_value(),
        }
    }

    fn call_link(span: Span, arguments: Items<Argument>) -> Link {
        Link::Call { span, arguments }
    }

    fn tagged_link(template: Template) -> Link {
        Link::Tagged(template)
    }

    fn no_links(alloc: Global) -> Items<Link> {
        Items::new(alloc)
    }

    fn push_link(list: &mut Items<Link>, link: Link) -> Result<(), AllocError> {
        list.push(link)
    }

    fn chain(
        alloc: Global,
        span: Span,
        head: Reading,
        links: Items<Link>,
    ) -> Result<Reading, AllocError> {
        if links.is_empty() {
            return Ok(head);
        }
        let (head, links) = boxed_beside(alloc, head.into_value(), links)?;
        Ok(Reading::left(Expression::Chain { span, head, links }))
    }
}
