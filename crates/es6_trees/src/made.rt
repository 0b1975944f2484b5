//! Puts parts of patterns together, where the parts before them could be built.

ghost use Rattle.std.specs.Prelude.{◌≡◌, OnOk};
ghost use Rattle.es6_ast.specs.declared.tree.Part.{roll-Part};
ghost use Rattle.es6_trees.specs.Made.{Adds, with_made};

use es_text::Span;
use es6_ast::{ArrayPart, Expression, Key, ObjectPart, Part, Pattern};
use sqlite_items::Items;
use std::alloc::AllocError;

/// Why nothing is built.
#[derive(Clone, Copy, Debug, PartialEq, Eq)]
pub enum Unbuilt {
    /// The expression doesn't fit, or is nested more than is looked at.
    Unfit,
    OutOfMemory,
}

impl From<AllocError> for Unbuilt {
    fn from(_error: AllocError) -> Unbuilt {
        Unbuilt::OutOfMemory
    }
}

/// Adds an item to the end, if it could be built.
pub fn add<T: Drop>(list: &mut Vec<T>, item: Result<T, Unbuilt>) -> Result<(), Unbuilt>
    ensures { OnOk result (Adds list.old.items item list.new.items) }
{
    match item {
        Ok(item) => match list.push(item) {
            Ok(()) => Ok(()),
            Err(_) => Err(Unbuilt::OutOfMemory),
        },
        Err(fault) => Err(fault),
    }
}

pub fn array_pattern(
    span: Span,
    parts: Result<Items<ArrayPart>, Unbuilt>,
) -> Result<Pattern, Unbuilt>
    ensures { result ≡ with_made (λ parts. Pattern.ArrayPattern span parts) parts }
{
    match parts {
        Ok(parts) => Ok(Pattern::ArrayPattern { span, parts }),
        Err(fault) => Err(fault),
    }
}

pub fn object_pattern(
    span: Span,
    parts: Result<Items<ObjectPart>, Unbuilt>,
) -> Result<Pattern, Unbuilt>
    ensures { result ≡ with_made (λ parts. Pattern.ObjectPattern span parts) parts }
{
    match parts {
        Ok(parts) => Ok(Pattern::ObjectPattern { span, parts }),
        Err(fault) => Err(fault),
    }
}

pub fn part(
    span: Span,
    pattern: Result<Pattern, Unbuilt>,
    default: Option<Expression>,
) -> Result<Part, Unbuilt>
    ensures { result ≡ with_made (λ pattern. roll-Part (record { span = span; pattern = pattern; default = default })) pattern }
{
    match pattern {
        Ok(pattern) => Ok(Part {
            span,
            pattern,
            default,
        }),
        Err(fault) => Err(fault),
    }
}

pub fn single_part(part: Result<Part, Unbuilt>) -> Result<ArrayPart, Unbuilt>
    ensures { result ≡ with_made (λ part. ArrayPart.SinglePart part) part }
{
    match part {
        Ok(part) => Ok(ArrayPart::SinglePart(part)),
        Err(fault) => Err(fault),
    }
}

pub fn rest_part(span: Span, pattern: Result<Pattern, Unbuilt>) -> Result<ArrayPart, Unbuilt>
    ensures { result ≡ with_made (λ pattern. ArrayPart.RestPart span pattern) pattern }
{
    match pattern {
        Ok(pattern) => Ok(ArrayPart::RestPart { span, pattern }),
        Err(fault) => Err(fault),
    }
}

pub fn keyed_part(span: Span, key: Key, part: Result<Part, Unbuilt>) -> Result<ObjectPart, Unbuilt>
    ensures { result ≡ with_made (λ part. ObjectPart.KeyedPart span key part) part }
{
    match part {
        Ok(part) => Ok(ObjectPart::KeyedPart { span, key, part }),
        Err(fault) => Err(fault),
    }
}
