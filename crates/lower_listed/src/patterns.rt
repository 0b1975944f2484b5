//! The names that patterns bind, each list in text order (ECMA-262, 6th edition, 13.3.3.1 and 14.1.3).

ghost use Rattle.std.specs.Prelude.{◌≡◌, ◌++◌, map, IfOk, OnOk};
ghost use Rattle.es6_static_semantics.specs.Findings.{joined};
ghost use Rattle.module_lowering.specs.Functions.{parameter_names};
ghost use Rattle.module_lowering.specs.Lowered.{array_part_lowered, expression_lowered, object_part_lowered, parameter_lowered, part_lowered, pattern_lowered};
ghost use Rattle.module_lowering.specs.Patterns.{identifiers};
ghost use Rattle.module_lowering.specs.Statements.{parts_names};

use crate::names::{NamedAt, expression_name};
use es6_ast::{ArrayPart, Expression, ObjectPart, Parameter, Part, Pattern};
use sqlite_items::Items;
use std::alloc::{AllocError, Global};

/// The name that a target is, if it is one.
fn push_target<'a>(target: &'a Expression, out: &mut Items<NamedAt<'a>>) -> Result<(), AllocError>
    ensures { OnOk result (out.new ≡ out.old ++ identifiers (expression_lowered target.now).name) }
{
    match expression_name(target) {
        None => Ok(()),
        Some(name) => out.push(name),
    }
}

/// Adds the names that a pattern binds.
#[cycle(patterns)]
#[tactic(auto, unfolding(module_lowering::specs::Lowered::pattern_lowered, module_lowering::specs::Lowered::expression_lowered, module_lowering::specs::Lowered::array_part_lowered, module_lowering::specs::Lowered::object_part_lowered))]
pub(crate) fn push_pattern<'a>(
    pattern: &'a Pattern,
    out: &mut Items<NamedAt<'a>>,
) -> Result<(), AllocError>
    ensures { OnOk result (out.new ≡ out.old ++ (pattern_lowered pattern.now).names) }
{
    match pattern {
        Pattern::Target(target) => push_target(target.get(), out),
        Pattern::ArrayPattern { parts, .. } => push_array_parts(parts.as_slice(), out),
        Pattern::ObjectPattern { parts, .. } => push_object_parts(parts.as_slice(), out),
    }
}

#[cycle(patterns)]
fn push_array_parts<'a>(
    parts: &'a [ArrayPart],
    out: &mut Items<NamedAt<'a>>,
) -> Result<(), AllocError>
    ensures { OnOk result (out.new ≡ out.old ++ joined (λ p. p.names) (map array_part_lowered parts.now)) }
{
    for part in parts {
        push_array_part(part, out)?;
    }
    Ok(())
}

#[cycle(patterns)]
#[tactic(auto, unfolding(module_lowering::specs::Lowered::array_part_lowered, module_lowering::specs::Lowered::part_lowered, module_lowering::specs::Lowered::pattern_lowered))]
fn push_array_part<'a>(part: &'a ArrayPart, out: &mut Items<NamedAt<'a>>) -> Result<(), AllocError>
    ensures { OnOk result (out.new ≡ out.old ++ (array_part_lowered part.now).names) }
{
    match part {
        ArrayPart::SkippedPart => Ok(()),
        ArrayPart::SinglePart(part) => push_pattern(&part.pattern, out),
        ArrayPart::RestPart { pattern, .. } => push_pattern(pattern, out),
    }
}

#[cycle(patterns)]
fn push_object_parts<'a>(
    parts: &'a [ObjectPart],
    out: &mut Items<NamedAt<'a>>,
) -> Result<(), AllocError>
    ensures { OnOk result (out.new ≡ out.old ++ joined (λ p. p.names) (map object_part_lowered parts.now)) }
{
    for part in parts {
        push_object_part(part, out)?;
    }
    Ok(())
}

#[cycle(patterns)]
#[tactic(auto, unfolding(module_lowering::specs::Lowered::object_part_lowered, module_lowering::specs::Lowered::part_lowered, module_lowering::specs::Lowered::pattern_lowered))]
fn push_object_part<'a>(
    part: &'a ObjectPart,
    out: &mut Items<NamedAt<'a>>,
) -> Result<(), AllocError>
    ensures { OnOk result (out.new ≡ out.old ++ (object_part_lowered part.now).names) }
{
    match part {
        ObjectPart::NamedPart(part) | ObjectPart::KeyedPart { part, .. } => {
            push_pattern(&part.pattern, out)
        }
    }
}

/// The same of variables that are declared together.
#[tactic(auto, unfolding(module_lowering::specs::Lowered::part_lowered, module_lowering::specs::Lowered::pattern_lowered))]
pub(crate) fn push_parts<'a>(
    parts: &'a [Part],
    out: &mut Items<NamedAt<'a>>,
) -> Result<(), AllocError>
    ensures { OnOk result (out.new ≡ out.old ++ parts_names (map part_lowered parts.now)) }
{
    for part in parts {
        push_pattern(&part.pattern, out)?;
    }
    Ok(())
}

#[tactic(auto, unfolding(module_lowering::specs::Lowered::parameter_lowered, module_lowering::specs::Lowered::part_lowered, module_lowering::specs::Lowered::pattern_lowered))]
fn parameter_pattern(parameter: &Parameter) -> &Pattern
    ensures { (pattern_lowered result.now).names ≡ (parameter_lowered parameter.now).part.pattern.names }
{
    match parameter {
        Parameter::SingleParameter(part) => &part.pattern,
        Parameter::RestParameter { pattern, .. } => pattern,
    }
}

/// The names that a pattern binds.
pub fn pattern_names<'a>(
    alloc: Global,
    pattern: &'a Pattern,
) -> Result<Items<NamedAt<'a>>, AllocError>
    ensures { IfOk result (λ names. names ≡ (pattern_lowered pattern.now).names) }
{
    let mut names = Items::new(alloc);
    push_pattern(pattern, &mut names)?;
    Ok(names)
}

/// The names that variables declared together bind.
pub fn parts_names<'a>(alloc: Global, parts: &'a [Part]) -> Result<Items<NamedAt<'a>>, AllocError>
    ensures { IfOk result (λ names. names ≡ parts_names (map part_lowered parts.now)) }
{
    let mut names = Items::new(alloc);
    push_parts(parts, &mut names)?;
    Ok(names)
}

/// The names that parameters bind.
pub fn parameters_names<'a>(
    alloc: Global,
    parameters: &'a [Parameter],
) -> Result<Items<NamedAt<'a>>, AllocError>
    ensures { IfOk result (λ names. names ≡ parameter_names (map parameter_lowered parameters.now)) }
{
    let mut names = Items::new(alloc);
    for parameter in parameters {
        push_pattern(parameter_pattern(parameter), &mut names)?;
    }
    Ok(names)
}
