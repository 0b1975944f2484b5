//! Statements (ECMA-262, 5.1 edition, 12).

ghost use Rattle.std.specs.Prelude.{◌≡◌, IfOk, None, Some};

use crate::optional::unboxed;
use es_text::Span;
use es5_ast::{
    Block5, Case5, Catch5, Condition5, Declared5, Expr5, ForFirst5, Function5, Identifier5, Stat5,
};
use sqlite_items::{Boxed, Items};
use std::alloc::{AllocError, Global};

/// 12.2
#[inline(never)]
pub fn variables(
    alloc: Global,
    span: Span,
    declared: Items<Declared5>,
) -> Result<Boxed<Stat5>, AllocError>
    ensures { IfOk result (λ x. x ≡ Stat5.Var span declared) }
{
    Boxed::new(alloc, Stat5::Var { span, declared })
}

/// 13
#[inline(never)]
pub fn declaration(alloc: Global, function: Boxed<Function5>) -> Result<Boxed<Stat5>, AllocError>
    ensures { IfOk result (λ x. x ≡ Stat5.FunctionDeclaration function) }
{
    Boxed::new(alloc, Stat5::FunctionDeclaration(function))
}

/// 12.1
#[inline(never)]
pub fn block(alloc: Global, block: Block5) -> Result<Boxed<Stat5>, AllocError>
    ensures { IfOk result (λ x. x ≡ Stat5.Block block) }
{
    Boxed::new(alloc, Stat5::Block(block))
}

/// 12.3
#[inline(never)]
pub fn empty(alloc: Global, span: Span) -> Result<Boxed<Stat5>, AllocError>
    ensures { IfOk result (λ x. x ≡ Stat5.Empty span) }
{
    Boxed::new(alloc, Stat5::Empty { span })
}

/// 12.4
#[inline(never)]
pub fn expression(
    alloc: Global,
    span: Span,
    expression: Boxed<Expr5>,
) -> Result<Boxed<Stat5>, AllocError>
    ensures { IfOk result (λ x. x ≡ Stat5.Expression span expression) }
{
    Boxed::new(
        alloc,
        Stat5::Expression {
            span,
            expression: expression.into_inner(),
        },
    )
}

/// 12.5
#[inline(never)]
pub fn if_statement(
    alloc: Global,
    span: Span,
    first: Boxed<Condition5>,
    more: Items<Condition5>,
    otherwise: Option<Boxed<Stat5>>,
) -> Result<Boxed<Stat5>, AllocError>
    ensures { IfOk result (λ x. x ≡ Stat5.If span first more otherwise) }
{
    Boxed::new(
        alloc,
        Stat5::If {
            span,
            first: first.into_inner(),
            more,
            otherwise,
        },
    )
}

/// 12.6.1
#[inline(never)]
pub fn do_while(
    alloc: Global,
    span: Span,
    body: Boxed<Stat5>,
    test: Boxed<Expr5>,
) -> Result<Boxed<Stat5>, AllocError>
    ensures { IfOk result (λ x. x ≡ Stat5.DoWhile span body test) }
{
    Boxed::new(
        alloc,
        Stat5::DoWhile {
            span,
            body,
            test: test.into_inner(),
        },
    )
}

/// 12.6.2
#[inline(never)]
pub fn while_statement(
    alloc: Global,
    span: Span,
    test: Boxed<Expr5>,
    body: Boxed<Stat5>,
) -> Result<Boxed<Stat5>, AllocError>
    ensures { IfOk result (λ x. x ≡ Stat5.While span test body) }
{
    Boxed::new(
        alloc,
        Stat5::While {
            span,
            test: test.into_inner(),
            body,
        },
    )
}

/// 12.6.3
#[inline(never)]
pub fn for_statement(
    alloc: Global,
    span: Span,
    first: Boxed<ForFirst5>,
    test: Option<Boxed<Expr5>>,
    update: Option<Boxed<Expr5>>,
    body: Boxed<Stat5>,
) -> Result<Boxed<Stat5>, AllocError>
    ensures { IfOk result (λ x. x ≡ Stat5.For span first test update body) }
{
    Boxed::new(
        alloc,
        Stat5::For {
            span,
            first: first.into_inner(),
            test: unboxed(test),
            update: unboxed(update),
            body,
        },
    )
}

/// 12.7
#[inline(never)]
pub fn continue_statement(
    alloc: Global,
    span: Span,
    label: Option<Identifier5>,
) -> Result<Boxed<Stat5>, AllocError>
    ensures { IfOk result (λ x. x ≡ Stat5.Continue span label) }
{
    Boxed::new(alloc, Stat5::Continue { span, label })
}

/// 12.8
#[inline(never)]
pub fn break_statement(
    alloc: Global,
    span: Span,
    label: Option<Identifier5>,
) -> Result<Boxed<Stat5>, AllocError>
    ensures { IfOk result (λ x. x ≡ Stat5.Break span label) }
{
    Boxed::new(alloc, Stat5::Break { span, label })
}

/// 12.9
#[inline(never)]
pub fn return_statement(
    alloc: Global,
    span: Span,
    value: Option<Boxed<Expr5>>,
) -> Result<Boxed<Stat5>, AllocError>
    ensures { IfOk result (λ x. x ≡ Stat5.Return span value) }
{
    Boxed::new(
        alloc,
        Stat5::Return {
            span,
            value: unboxed(value),
        },
    )
}

/// 12.11
#[inline(never)]
pub fn switch(
    alloc: Global,
    span: Span,
    subject: Boxed<Expr5>,
    cases: Items<Case5>,
) -> Result<Boxed<Stat5>, AllocError>
    ensures { IfOk result (λ x. x ≡ Stat5.Switch span subject cases) }
{
    Boxed::new(
        alloc,
        Stat5::Switch {
            span,
            subject: subject.into_inner(),
            cases,
        },
    )
}

/// 12.12
#[inline(never)]
pub fn labelled(
    alloc: Global,
    span: Span,
    label: Identifier5,
    body: Boxed<Stat5>,
) -> Result<Boxed<Stat5>, AllocError>
    ensures { IfOk result (λ x. x ≡ Stat5.Labelled span label body) }
{
    Boxed::new(alloc, Stat5::Labelled { span, label, body })
}

/// 12.13
#[inline(never)]
pub fn throw(alloc: Global, span: Span, value: Boxed<Expr5>) -> Result<Boxed<Stat5>, AllocError>
    ensures { IfOk result (λ x. x ≡ Stat5.Throw span value) }
{
    Boxed::new(
        alloc,
        Stat5::Throw {
            span,
            value: value.into_inner(),
        },
    )
}

/// 12.14, with a catch
#[inline(never)]
pub fn try_catch(
    alloc: Global,
    span: Span,
    block: Block5,
    catch: Boxed<Catch5>,
) -> Result<Boxed<Stat5>, AllocError>
    ensures { IfOk result (λ x. x ≡ Stat5.Try span block (Some catch) None) }
{
    Boxed::new(
        alloc,
        Stat5::Try {
            span,
            block,
            catch: Some(catch.into_inner()),
            finally: None,
        },
    )
}

/// 12.14, with both
#[inline(never)]
pub fn try_catch_finally(
    alloc: Global,
    span: Span,
    block: Block5,
    catch: Boxed<Catch5>,
    finally: Block5,
) -> Result<Boxed<Stat5>, AllocError>
    ensures { IfOk result (λ x. x ≡ Stat5.Try span block (Some catch) (Some finally)) }
{
    Boxed::new(
        alloc,
        Stat5::Try {
            span,
            block,
            catch: Some(catch.into_inner()),
            finally: Some(finally),
        },
    )
}

/// 12.14, with no catch
#[inline(never)]
pub fn try_finally(
    alloc: Global,
    span: Span,
    block: Block5,
    finally: Block5,
) -> Result<Boxed<Stat5>, AllocError>
    ensures { IfOk result (λ x. x ≡ Stat5.Try span block None (Some finally)) }
{
    Boxed::new(
        alloc,
        Stat5::Try {
            span,
            block,
            catch: None,
            finally: Some(finally),
        },
    )
}

/// 12.15
#[inline(never)]
pub fn debugger(alloc: Global, span: Span) -> Result<Boxed<Stat5>, AllocError>
    ensures { IfOk result (λ x. x ≡ Stat5.Debugger span) }
{
    Boxed::new(alloc, Stat5::Debugger { span })
}
