//! Object patterns (ECMA-262, 6th edition, 12.14.5 and 13.3.3).

ghost use Rattle.std.specs.Prelude.{◌≡◌, [], ◌∷◌, ◌++◌, IfOk, OnOk};
ghost use Rattle.lowering_rules.specs.Making.{set};
ghost use Rattle.lowering_rules.specs.Patterns.{object_part, object_pattern};

use crate::properties::{Found, base_check, read};
use core_ast::{CoreStat, Var};
use lower_parts::{alone, push_default, set};
use lowering_rules::{ObjectPart, Target};
use sqlite_items::Items;
use std::alloc::{AllocError, Global};
use std::collections::VecDeque;

/// The name, what the value goes to, and then the value.
fn push_read(
    alloc: Global,
    value: Var,
    found: Found,
    before: Items<CoreStat>,
    out: &mut Items<CoreStat>,
) -> Result<(), AllocError>
    ensures { OnOk result (out.new ≡ out.old ++ found.before ++ before ++ set value found.at ∷ []) }
{
    out.append(found.before)?;
    out.append(before)?;
    out.push(set(alloc, value, found.at)?)
}

fn push_part(
    alloc: Global,
    subject: Var,
    value: Var,
    part: ObjectPart,
    out: &mut Items<CoreStat>,
) -> Result<(), AllocError>
    ensures { OnOk result (out.new ≡ out.old ++ object_part subject value part) }
{
    let ObjectPart { name, target } = part;
    let Target {
        before,
        default,
        after,
    } = target;
    let found = read(alloc, subject, name)?;
    push_read(alloc, value, found, before, out)?;
    push_default(alloc, value, default, out)?;
    out.append(after)
}

/// The parts take the properties of the value of the subject.
pub fn lower_object_pattern(
    alloc: Global,
    subject: Var,
    value: Var,
    parts: Vec<ObjectPart>,
) -> Result<Items<CoreStat>, AllocError>
    ensures { IfOk result (λ ss. ss ≡ object_pattern subject value parts.items) }
{
    let mut left = VecDeque::from_vec(parts);
    let mut out = alone(alloc, base_check(alloc, subject)?)?;
    while let Some(part) = left.pop_front() {
        push_part(alloc, subject, value, part, &mut out)?;
    }
    Ok(out)
}
