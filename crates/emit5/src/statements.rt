//! Statements (ECMA-262, 5.1 edition, 12).

ghost use Rattle.std.specs.Prelude.{◌≡◌, ◌++◌, IfOk, OnOk, None, Some};
ghost use Rattle.emission_rules.specs.Emission.{case, caught, finished};
ghost use Rattle.es5_ast.specs.declared.tree.Catch5.{roll-Catch5};
ghost use Rattle.emission_rules.specs.Nodes.{block, expression, identifier, nowhere};

use emit_expressions::{block, identifier, nowhere};
use es5_ast::{Case5, Catch5, Expr5, Stat5};
use sqlite_items::{Boxed, Items};
use std::alloc::{AllocError, Global};

/// A part that may be absent, without its box.
pub(crate) fn unboxed<T>(part: Option<Boxed<T>>) -> Option<T>
    ensures { result ≡ part }
{
    match part {
        Some(part) => Some(part.into_inner()),
        None => None,
    }
}

/// 12.1
pub(crate) fn boxed_block(
    alloc: Global,
    statements: Items<Stat5>,
) -> Result<Boxed<Stat5>, AllocError>
    ensures { IfOk result (λ s. s ≡ Stat5.Block (block statements)) }
{
    Boxed::new(alloc, Stat5::Block(block(statements)))
}

/// An expression statement (12.4).
pub fn expression(value: Boxed<Expr5>) -> Stat5
    ensures { result ≡ expression value }
{
    Stat5::Expression {
        span: nowhere(),
        expression: value.into_inner(),
    }
}

/// A return of this value (12.9).
pub fn returned(value: Boxed<Expr5>) -> Stat5
    ensures { result ≡ Stat5.Return nowhere (Some value) }
{
    Stat5::Return {
        span: nowhere(),
        value: Some(value.into_inner()),
    }
}

/// 12.13
pub(crate) fn thrown(value: Boxed<Expr5>) -> Stat5
    ensures { result ≡ Stat5.Throw nowhere value }
{
    Stat5::Throw {
        span: nowhere(),
        value: value.into_inner(),
    }
}

/// 12.11, and the case of an `if`
pub(crate) fn case(test: Option<Boxed<Expr5>>, body: Items<Stat5>) -> Case5
    ensures { result ≡ case test body }
{
    Case5 {
        span: nowhere(),
        test: unboxed(test),
        body,
    }
}

/// 12.11
pub(crate) fn switch(subject: Boxed<Expr5>, cases: Vec<Case5>) -> Stat5
    ensures { result ≡ Stat5.Switch nowhere subject cases.items }
{
    Stat5::Switch {
        span: nowhere(),
        subject: subject.into_inner(),
        cases: Items::from_vec(cases),
    }
}

fn catch(alloc: Global, parameter: &[u8], body: Items<Stat5>) -> Result<Catch5, AllocError>
    ensures { IfOk result (λ x. x ≡ roll-Catch5 (record { span = nowhere; parameter = identifier parameter.now; body = block body })) }
{
    let parameter = identifier(alloc, parameter)?;
    Ok(Catch5 {
        span: nowhere(),
        parameter,
        body: block(body),
    })
}

/// 12.14, with a catch
pub(crate) fn caught(
    alloc: Global,
    body: Items<Stat5>,
    parameter: &[u8],
    handler: Items<Stat5>,
) -> Result<Stat5, AllocError>
    ensures { IfOk result (λ s. s ≡ caught body parameter.now handler) }
{
    let catch = catch(alloc, parameter, handler)?;
    Ok(Stat5::Try {
        span: nowhere(),
        block: block(body),
        catch: Some(catch),
        finally: None,
    })
}

/// 12.14, with no catch
pub(crate) fn finished(body: Items<Stat5>, last: Items<Stat5>) -> Stat5
    ensures { result ≡ finished body last }
{
    Stat5::Try {
        span: nowhere(),
        block: block(body),
        catch: None,
        finally: Some(block(last)),
    }
}
