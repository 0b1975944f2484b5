//! The nodes of left-hand-side expressions (ECMA-262, 6th edition, 12.3).

ghost use Rattle.std.specs.Prelude.{◌≡◌, ◌++◌, ◌∷◌, [], IfOk, List, OnOk};
ghost use Rattle.es6_ast.specs.declared.tree.Expression.TheVariants as expr;
ghost use Rattle.es6_ast.specs.declared.tree.Link.TheVariants as link;
ghost use Rattle.es6_ast.specs.declared.tree.Link.{Link};
ghost use Rattle.es6_reading.specs.Expressions.{chained, left};

use crate::arguments::MakesArguments;
use crate::templates::MakesTemplates;
use es_text::Span;
use es6_ast::Identifier;
use std::alloc::{AllocError, Global};

/// Makes the nodes of accesses, calls, `super` and `new`.
pub trait MakesLinks: MakesArguments + MakesTemplates {
    type Link: Drop;

    type Links: Drop;

    ghost seen_link: { Self.Link → Link };

    ghost seen_links: { Self.Links → List Link };

    /// `super.k` (12.3.5)
    fn super_member(span: Span, name: Identifier) -> Self::Reading
        ensures { Self.seen result ≡ left (expr.SuperMember span name) };

    /// `super[k]` (12.3.5)
    fn super_index(
        alloc: Global,
        span: Span,
        index: Self::Reading,
    ) -> Result<Self::Reading, AllocError>
        ensures { IfOk result (λ made. Self.seen made ≡ left (expr.SuperIndex span (Self.seen index).value)) };

    /// 12.3.5
    fn super_call(span: Span, arguments: Self::Arguments) -> Self::Reading
        ensures { Self.seen result ≡ left (expr.SuperCall span (Self.seen_arguments arguments)) };

    /// 12.3.8
    fn new_target(span: Span) -> Self::Reading
        ensures { Self.seen result ≡ left (expr.NewTarget span) };

    /// 12.3.3
    fn new_expression(
        alloc: Global,
        span: Span,
        callee: Self::Reading,
        arguments: Self::Arguments,
    ) -> Result<Self::Reading, AllocError>
        ensures { IfOk result (λ made. Self.seen made ≡ left (expr.New span (Self.seen callee).value (Self.seen_arguments arguments))) };

    /// 12.3
    fn member_link(span: Span, name: Identifier) -> Self::Link
        ensures { Self.seen_link result ≡ link.Member span name };

    fn index_link(span: Span, index: Self::Reading) -> Self::Link
        ensures { Self.seen_link result ≡ link.Index span (Self.seen index).value };

    fn call_link(span: Span, arguments: Self::Arguments) -> Self::Link
        ensures { Self.seen_link result ≡ link.Call span (Self.seen_arguments arguments) };

    fn tagged_link(template: Self::Template) -> Self::Link
        ensures { Self.seen_link result ≡ link.Tagged (Self.seen_template template) };

    fn no_links(alloc: Global) -> Self::Links
        ensures { Self.seen_links result ≡ [] };

    fn push_link(list: &mut Self::Links, link: Self::Link) -> Result<(), AllocError>
        ensures { OnOk result (Self.seen_links list.new ≡ Self.seen_links list.old ++ Self.seen_link link ∷ []) };

    /// What accesses and calls begin with, and these, if there are any (12.3).
    fn chain(
        alloc: Global,
        span: Span,
        head: Self::Reading,
        links: Self::Links,
    ) -> Result<Self::Reading, AllocError>
        ensures { IfOk result (λ made. Self.seen made ≡ chained (Self.seen head) (Self.seen_links links) span) };
}
