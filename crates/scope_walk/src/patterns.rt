//! Patterns and targets (ECMA-262, 6th edition, 12.14.5 and 13.3.3).

ghost use Rattle.std.specs.Prelude.{◌≡◌, ◌++◌, map, OnOk};
ghost use Rattle.scope_rules.specs.Marks.{array_part_marked, declarators, expression_marked, object_part_marked, part_marked, parts_marks, pattern_marked, target_marks};

use crate::expressions::{expression, optional};
use crate::objects::key;
use es6_ast::{ArrayPart, Expression, ObjectPart, Part, Pattern};
use scope_heads::declare_target;
use scope_rules::{Kind, Marks, Role};
use std::alloc::AllocError;

/// The marks of a pattern, which declares names or is assigned.
#[cycle(walk)]
pub fn targets<'a>(
    marks: &mut Marks<'a>,
    pattern: &'a Pattern,
    role: Role,
) -> Result<(), AllocError>
    ensures { OnOk result (marks.new ≡ marks.old ++ (pattern_marked pattern.now).marks role) }
{
    match pattern {
        Pattern::Target(held) => target(marks, held.get(), role),
        Pattern::ArrayPattern { parts, .. } => array_parts(marks, parts.as_slice(), role),
        Pattern::ObjectPattern { parts, .. } => object_parts(marks, parts.as_slice(), role),
    }
}

#[cycle(walk)]
fn target<'a>(marks: &mut Marks<'a>, held: &'a Expression, role: Role) -> Result<(), AllocError>
    ensures { OnOk result (marks.new ≡ marks.old ++ target_marks (expression_marked held.now) role) }
{
    match role {
        Role::Assigned => expression(marks, held),
        Role::Declared { kind, end } => declare_target(marks, kind, end, held),
    }
}

#[cycle(walk)]
fn array_parts<'a>(
    marks: &mut Marks<'a>,
    parts: &'a [ArrayPart],
    role: Role,
) -> Result<(), AllocError>
    ensures { OnOk result (marks.new ≡ marks.old ++ parts_marks role (map array_part_marked parts.now)) }
{
    for part in parts {
        array_part(marks, part, role)?;
    }
    Ok(())
}

#[cycle(walk)]
fn array_part<'a>(marks: &mut Marks<'a>, item: &'a ArrayPart, role: Role) -> Result<(), AllocError>
    ensures { OnOk result (marks.new ≡ marks.old ++ (array_part_marked item.now).marks role) }
{
    match item {
        ArrayPart::SkippedPart => Ok(()),
        ArrayPart::SinglePart(single) => part(marks, single, role),
        ArrayPart::RestPart { pattern, .. } => targets(marks, pattern, role),
    }
}

#[cycle(walk)]
fn object_parts<'a>(
    marks: &mut Marks<'a>,
    parts: &'a [ObjectPart],
    role: Role,
) -> Result<(), AllocError>
    ensures { OnOk result (marks.new ≡ marks.old ++ parts_marks role (map object_part_marked parts.now)) }
{
    for part in parts {
        object_part(marks, part, role)?;
    }
    Ok(())
}

#[cycle(walk)]
fn object_part<'a>(
    marks: &mut Marks<'a>,
    item: &'a ObjectPart,
    role: Role,
) -> Result<(), AllocError>
    ensures { OnOk result (marks.new ≡ marks.old ++ (object_part_marked item.now).marks role) }
{
    match item {
        ObjectPart::NamedPart(named) => part(marks, named, role),
        ObjectPart::KeyedPart {
            key: name,
            part: keyed,
            ..
        } => {
            key(marks, name)?;
            part(marks, keyed, role)
        }
    }
}

/// The marks of a pattern with the value that it has by default.
#[cycle(walk)]
#[tactic(auto, using(crate::proofs::Layers::part_out))]
pub fn part<'a>(marks: &mut Marks<'a>, item: &'a Part, role: Role) -> Result<(), AllocError>
    ensures { OnOk result (marks.new ≡ marks.old ++ (part_marked item.now).marks role) }
{
    targets(marks, &item.pattern, role)?;
    optional(marks, &item.default)
}

/// Variables that are declared together.
#[cycle(walk)]
#[tactic(auto, using(crate::proofs::Layers::part_end_out))]
pub(crate) fn variables<'a>(
    marks: &mut Marks<'a>,
    kind: Kind,
    parts: &'a [Part],
) -> Result<(), AllocError>
    ensures { OnOk result (marks.new ≡ marks.old ++ declarators kind (map part_marked parts.now)) }
{
    for item in parts {
        let end = item.span.end;
        part(marks, item, Role::Declared { kind, end })?;
    }
    Ok(())
}
