//! Labels (ECMA-262, 5.1 edition, 12.12), the loops that have them, and the jumps to them.

ghost use Rattle.std.specs.Prelude.{◌≡◌, [], IfOk};
ghost use Rattle.emission_rules.specs.Emission.{jumped, label as label_of, label_if, label_text, labelled, labelled_by, looped};
ghost use Rattle.emission_rules.specs.Nodes.{block, identifier};

use crate::statements::boxed_block;
use core_ast::Label;
use emit_expressions::nowhere;
use es5_ast::{Expr5, Identifier5, Stat5};
use es5_nodes::{parts, statements};
use shared_text::Name;
use sqlite_items::{Boxed, Items};
use std::alloc::{AllocError, Global};

fn label_text(alloc: Global, label: Label) -> Result<Name, AllocError>
    ensures { IfOk result (λ text. text ≡ label_text label) }
{
    let text = format!(in alloc; "l{}", label.0)?;
    Name::of_bytes(alloc, text.as_bytes())
}

fn identifier(alloc: Global, label: Label) -> Result<Identifier5, AllocError>
    ensures { IfOk result (λ x. x ≡ label_of label) }
{
    Ok(Identifier5 {
        span: nowhere(),
        name: label_text(alloc, label)?,
    })
}

#[tactic(auto, unfolding(emission_rules::specs::Emission::label_if))]
fn identifier_if(alloc: Global, label: Option<Label>) -> Result<Option<Identifier5>, AllocError>
    ensures { IfOk result (λ x. x ≡ label_if label) }
{
    match label {
        Some(label) => Ok(Some(identifier(alloc, label)?)),
        None => Ok(None),
    }
}

fn labelled_statement(
    alloc: Global,
    label: Label,
    body: Boxed<Stat5>,
) -> Result<Boxed<Stat5>, AllocError>
    ensures { IfOk result (λ s. s ≡ labelled label body) }
{
    let label = identifier(alloc, label)?;
    statements::labelled(alloc, nowhere(), label, body)
}

/// The last label stands first.
fn labelled_by(
    alloc: Global,
    labels: &[Label],
    body: Boxed<Stat5>,
) -> Result<Boxed<Stat5>, AllocError>
    ensures { IfOk result (λ s. s ≡ labelled_by labels.now body) }
{
    let mut made = body;
    for label in labels {
        made = labelled_statement(alloc, *label, made)?;
    }
    Ok(made)
}

/// A block with a label (12.12).
pub(crate) fn labelled(
    alloc: Global,
    label: Label,
    body: Items<Stat5>,
) -> Result<Boxed<Stat5>, AllocError>
    ensures { IfOk result (λ s. s ≡ labelled label (Stat5.Block (block body))) }
{
    let body = boxed_block(alloc, body)?;
    labelled_statement(alloc, label, body)
}

/// A `for` statement with nothing before its first semicolon (12.6.3).
fn unlabelled(
    alloc: Global,
    test: Option<Boxed<Expr5>>,
    update: Option<Boxed<Expr5>>,
    body: Items<Stat5>,
) -> Result<Boxed<Stat5>, AllocError>
    ensures { IfOk result (λ s. s ≡ looped [] test update body) }
{
    let body = boxed_block(alloc, body)?;
    let first = parts::no_first(alloc)?;
    statements::for_statement(alloc, nowhere(), first, test, update, body)
}

/// A `for` statement and its labels.
pub(crate) fn looped(
    alloc: Global,
    labels: &[Label],
    test: Option<Boxed<Expr5>>,
    update: Option<Boxed<Expr5>>,
    body: Items<Stat5>,
) -> Result<Boxed<Stat5>, AllocError>
    ensures { IfOk result (λ s. s ≡ looped labels.now test update body) }
{
    let made = unlabelled(alloc, test, update, body)?;
    labelled_by(alloc, labels, made)
}

/// A `continue` or a `break` (12.7, 12.8).
#[tactic(auto, unfolding(emission_rules::specs::Emission::jumped))]
pub(crate) fn jumped(
    alloc: Global,
    goes_on: bool,
    label: Option<Label>,
) -> Result<Stat5, AllocError>
    ensures { IfOk result (λ s. s ≡ jumped goes_on label) }
{
    let label = identifier_if(alloc, label)?;
    let span = nowhere();
    if goes_on {
        return Ok(Stat5::Continue { span, label });
    }
    Ok(Stat5::Break { span, label })
}
