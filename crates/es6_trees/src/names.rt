//! Names as patterns, and expressions as targets by themselves.

ghost use Rattle.std.specs.Prelude.{◌≡◌, IfOk};
ghost use Rattle.es6_ast.specs.Grammar.{name_target};
ghost use Rattle.es6_ast.specs.declared.tree.Part.{roll-Part};

use crate::made::Unbuilt;
use es_text::Span;
use es6_ast::{Expression, Identifier, ObjectPart, Part, Pattern};
use sqlite_items::Boxed;
use std::alloc::{AllocError, Global};

pub fn target_alone(alloc: Global, expression: Expression) -> Result<Pattern, Unbuilt>
    ensures { IfOk result (λ pattern. pattern ≡ Pattern.Target expression) }
{
    Ok(Pattern::Target(Boxed::new(alloc, expression)?))
}

/// A name that is bound, or assigned.
pub fn name_target(alloc: Global, name: Identifier) -> Result<Pattern, AllocError>
    ensures { IfOk result (λ pattern. pattern ≡ name_target name) }
{
    let Identifier { span, name } = name;
    Ok(Pattern::Target(Boxed::new(alloc, Expression::Name { span, name })?))
}

/// The same with a default, or without one.
pub fn named_part(
    alloc: Global,
    span: Span,
    name: Identifier,
    default: Option<Expression>,
) -> Result<Part, AllocError>
    ensures { IfOk result (λ part. part ≡ roll-Part (record { span = span; pattern = name_target name; default = default })) }
{
    Ok(Part {
        span,
        pattern: name_target(alloc, name)?,
        default,
    })
}

/// The same as a property of an object pattern.
pub fn named(
    alloc: Global,
    span: Span,
    name: Identifier,
    default: Option<Expression>,
) -> Result<ObjectPart, Unbuilt>
    ensures { IfOk result (λ part. part ≡ ObjectPart.NamedPart (roll-Part (record { span = span; pattern = name_target name; default = default }))) }
{
    Ok(ObjectPart::NamedPart(named_part(alloc, span, name, default)?))
}
