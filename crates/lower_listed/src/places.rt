//! The places of the names that patterns bind, offsets in bytes, in text order (ECMA-262, 6th edition, 13.3.3.1).

ghost use Rattle.std.specs.Prelude.{◌≡◌, ◌++◌, map, OnOk};
ghost use Rattle.es6_static_semantics.specs.Findings.{joined};
ghost use Rattle.module_lowering.specs.Lowered.{array_part_lowered, expression_lowered, object_part_lowered, part_lowered, pattern_lowered};
ghost use Rattle.module_lowering.specs.Names.{places};
ghost use Rattle.module_lowering.specs.Patterns.{identifiers};
ghost use Rattle.module_lowering.specs.Statements.{parts_names};

use crate::names::expression_name;
use es6_ast::{ArrayPart, Expression, ObjectPart, Part, Pattern};
use lower_walk::lower_names::ListsName;
use sqlite_items::Items;
use std::alloc::AllocError;

/// The place of the name that a target is, if it is one.
fn push_target_places(target: &Expression, out: &mut Items<u32>) -> Result<(), AllocError>
    ensures { OnOk result (out.new ≡ out.old ++ places (identifiers (expression_lowered target.now).name)) }
{
    match expression_name(target) {
        None => Ok(()),
        Some(name) => out.push(name.begin()),
    }
}

/// Adds the places of the names that a pattern binds.
#[cycle(places)]
#[tactic(auto, unfolding(module_lowering::specs::Lowered::pattern_lowered, module_lowering::specs::Lowered::expression_lowered, module_lowering::specs::Lowered::array_part_lowered, module_lowering::specs::Lowered::object_part_lowered))]
fn push_pattern_places(pattern: &Pattern, out: &mut Items<u32>) -> Result<(), AllocError>
    ensures { OnOk result (out.new ≡ out.old ++ places (pattern_lowered pattern.now).names) }
{
    match pattern {
        Pattern::Target(target) => push_target_places(target.get(), out),
        Pattern::ArrayPattern { parts, .. } => push_array_places(parts.as_slice(), out),
        Pattern::ObjectPattern { parts, .. } => push_object_places(parts.as_slice(), out),
    }
}

#[cycle(places)]
fn push_array_places(parts: &[ArrayPart], out: &mut Items<u32>) -> Result<(), AllocError>
    ensures { OnOk result (out.new ≡ out.old ++ places (joined (λ p. p.names) (map array_part_lowered parts.now))) }
{
    for part in parts {
        push_array_part_places(part, out)?;
    }
    Ok(())
}

#[cycle(places)]
#[tactic(auto, unfolding(module_lowering::specs::Lowered::array_part_lowered, module_lowering::specs::Lowered::part_lowered, module_lowering::specs::Lowered::pattern_lowered))]
fn push_array_part_places(part: &ArrayPart, out: &mut Items<u32>) -> Result<(), AllocError>
    ensures { OnOk result (out.new ≡ out.old ++ places (array_part_lowered part.now).names) }
{
    match part {
        ArrayPart::SkippedPart => Ok(()),
        ArrayPart::SinglePart(part) => push_pattern_places(&part.pattern, out),
        ArrayPart::RestPart { pattern, .. } => push_pattern_places(pattern, out),
    }
}

#[cycle(places)]
fn push_object_places(parts: &[ObjectPart], out: &mut Items<u32>) -> Result<(), AllocError>
    ensures { OnOk result (out.new ≡ out.old ++ places (joined (λ p. p.names) (map object_part_lowered parts.now))) }
{
    for part in parts {
        push_object_part_places(part, out)?;
    }
    Ok(())
}

#[cycle(places)]
#[tactic(auto, unfolding(module_lowering::specs::Lowered::object_part_lowered, module_lowering::specs::Lowered::part_lowered, module_lowering::specs::Lowered::pattern_lowered))]
fn push_object_part_places(part: &ObjectPart, out: &mut Items<u32>) -> Result<(), AllocError>
    ensures { OnOk result (out.new ≡ out.old ++ places (object_part_lowered part.now).names) }
{
    match part {
        ObjectPart::NamedPart(part) | ObjectPart::KeyedPart { part, .. } => {
            push_pattern_places(&part.pattern, out)
        }
    }
}

/// The same of variables that are declared together.
#[tactic(auto, unfolding(module_lowering::specs::Lowered::part_lowered, module_lowering::specs::Lowered::pattern_lowered))]
pub(crate) fn push_parts_places(parts: &[Part], out: &mut Items<u32>) -> Result<(), AllocError>
    ensures { OnOk result (out.new ≡ out.old ++ places (parts_names (map part_lowered parts.now))) }
{
    for part in parts {
        push_pattern_places(&part.pattern, out)?;
    }
    Ok(())
}
