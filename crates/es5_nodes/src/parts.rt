//! Parts of expressions and statements (ECMA-262, 5.1 edition, 11 to 13).

ghost use Rattle.std.specs.Prelude.{◌≡◌, IfOk, None, Some};
ghost use Rattle.es5_ast.specs.declared.tree.Case5.{roll-Case5};
ghost use Rattle.es5_ast.specs.declared.tree.Catch5.{roll-Catch5};
ghost use Rattle.es5_ast.specs.declared.tree.Condition5.{roll-Condition5};
ghost use Rattle.es5_ast.specs.declared.tree.Declared5.{roll-Declared5};
ghost use Rattle.es5_ast.specs.declared.tree.Function5.{roll-Function5};
ghost use Rattle.es5_reading.specs.Expressions.{accessor_of};

use crate::optional::unboxed;
use es_text::Span;
use es5_ast::{
    Block5, Case5, Catch5, Condition5, Declared5, Expr5, ForFirst5, Function5, Identifier5, Link5,
    PlacedKey5, Property5, Stat5,
};
use shared_text::Name;
use sqlite_items::{Boxed, Items};
use std::alloc::{AllocError, Global};

/// 13
#[inline(never)]
pub fn function(
    alloc: Global,
    span: Span,
    name: Option<Boxed<Identifier5>>,
    parameters: Items<Identifier5>,
    body: Items<Stat5>,
) -> Result<Boxed<Function5>, AllocError>
    ensures { IfOk result (λ x. x ≡ roll-Function5 (record { span = span; name = name; parameters = parameters; body = body })) }
{
    Boxed::new(
        alloc,
        Function5 {
            span,
            name: unboxed(name),
            parameters,
            body,
        },
    )
}

/// 11.1.5
#[inline(never)]
pub fn property(
    alloc: Global,
    span: Span,
    key: PlacedKey5,
    value: Boxed<Expr5>,
) -> Result<Boxed<Property5>, AllocError>
    ensures { IfOk result (λ x. x ≡ Property5.Plain span key value) }
{
    Boxed::new(
        alloc,
        Property5::Plain {
            span,
            key,
            value: value.into_inner(),
        },
    )
}

/// 11.1.5
#[inline(never)]
pub fn accessor(
    alloc: Global,
    setter: bool,
    span: Span,
    key: PlacedKey5,
    function: Boxed<Function5>,
) -> Result<Boxed<Property5>, AllocError>
    ensures { IfOk result (λ x. x ≡ accessor_of setter span key function) }
{
    if setter {
        Boxed::new(
            alloc,
            Property5::Setter {
                span,
                key,
                function,
            },
        )
    } else {
        Boxed::new(
            alloc,
            Property5::Getter {
                span,
                key,
                function,
            },
        )
    }
}

/// 11.2.1
#[inline(never)]
pub fn member(alloc: Global, span: Span, name: Name) -> Result<Boxed<Link5>, AllocError>
    ensures { IfOk result (λ x. x ≡ Link5.Member span name) }
{
    Boxed::new(alloc, Link5::Member { span, name })
}

/// 11.2.1
#[inline(never)]
pub fn index(alloc: Global, span: Span, index: Boxed<Expr5>) -> Result<Boxed<Link5>, AllocError>
    ensures { IfOk result (λ x. x ≡ Link5.Index span index) }
{
    Boxed::new(
        alloc,
        Link5::Index {
            span,
            index: index.into_inner(),
        },
    )
}

/// 11.2.3
#[inline(never)]
pub fn call(alloc: Global, span: Span, arguments: Items<Expr5>) -> Result<Boxed<Link5>, AllocError>
    ensures { IfOk result (λ x. x ≡ Link5.Call span arguments None) }
{
    Boxed::new(
        alloc,
        Link5::Call {
            span,
            arguments,
            site: None,
        },
    )
}

/// 12.2
#[inline(never)]
pub fn declared(
    alloc: Global,
    span: Span,
    name: Identifier5,
    init: Option<Boxed<Expr5>>,
) -> Result<Boxed<Declared5>, AllocError>
    ensures { IfOk result (λ x. x ≡ roll-Declared5 (record { span = span; name = name; init = init })) }
{
    Boxed::new(
        alloc,
        Declared5 {
            span,
            name,
            init: unboxed(init),
        },
    )
}

/// 12.5
#[inline(never)]
pub fn condition(
    alloc: Global,
    span: Span,
    test: Boxed<Expr5>,
    body: Boxed<Stat5>,
) -> Result<Boxed<Condition5>, AllocError>
    ensures { IfOk result (λ x. x ≡ roll-Condition5 (record { span = span; test = test; body = body })) }
{
    Boxed::new(
        alloc,
        Condition5 {
            span,
            test: test.into_inner(),
            body,
        },
    )
}

/// 12.6.3
#[inline(never)]
pub fn no_first(alloc: Global) -> Result<Boxed<ForFirst5>, AllocError>
    ensures { IfOk result (λ x. x ≡ ForFirst5.NoFirst) }
{
    Boxed::new(alloc, ForFirst5::NoFirst)
}

/// 12.6.3
#[inline(never)]
pub fn first_var(alloc: Global, declared: Items<Declared5>) -> Result<Boxed<ForFirst5>, AllocError>
    ensures { IfOk result (λ x. x ≡ ForFirst5.FirstVar declared) }
{
    Boxed::new(alloc, ForFirst5::FirstVar(declared))
}

/// 12.6.3
#[inline(never)]
pub fn first_expression(alloc: Global, value: Boxed<Expr5>) -> Result<Boxed<ForFirst5>, AllocError>
    ensures { IfOk result (λ x. x ≡ ForFirst5.FirstExpression value) }
{
    Boxed::new(alloc, ForFirst5::FirstExpression(value.into_inner()))
}

/// 12.11
#[inline(never)]
pub fn case(
    alloc: Global,
    span: Span,
    test: Option<Boxed<Expr5>>,
    body: Items<Stat5>,
) -> Result<Boxed<Case5>, AllocError>
    ensures { IfOk result (λ x. x ≡ roll-Case5 (record { span = span; test = test; body = body })) }
{
    Boxed::new(
        alloc,
        Case5 {
            span,
            test: unboxed(test),
            body,
        },
    )
}

/// 12.14
#[inline(never)]
pub fn catch(
    alloc: Global,
    span: Span,
    parameter: Identifier5,
    body: Block5,
) -> Result<Boxed<Catch5>, AllocError>
    ensures { IfOk result (λ x. x ≡ roll-Catch5 (record { span = span; parameter = parameter; body = body })) }
{
    Boxed::new(
        alloc,
        Catch5 {
            span,
            parameter,
            body,
        },
    )
}
