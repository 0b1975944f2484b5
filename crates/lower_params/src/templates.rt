//! Templates (ECMA-262, 6th edition, 12.2.9.5).

ghost use Rattle.std.specs.Prelude.{◌≡◌, ◌++◌, IfOk, OnOk};
ghost use Rattle.std.specs.List.{flat_map};
ghost use Rattle.lowering_rules.specs.Expressions.{template, template_links};

use core_ast::{Binary, Constant, CoreExpr, CoreHead, CoreLink, CoreOp, acting};
use lower_parts::{text, to_text};
use lowering_rules::TemplatePart;
use shared_text::Units;
use sqlite_items::Items;
use std::alloc::{AllocError, Global};
use std::collections::VecDeque;

fn push_part(
    alloc: Global,
    part: TemplatePart,
    links: &mut Items<CoreLink>,
) -> Result<(), AllocError>
    ensures { OnOk result (links.new ≡ links.old ++ template_links part) }
{
    let value = to_text(alloc, part.value)?;
    let behind = text(alloc, part.text);
    links.push(acting(alloc, CoreOp::Operator(Binary::Add), value)?)?;
    links.push(acting(alloc, CoreOp::Operator(Binary::Add), behind)?)
}

fn part_links(alloc: Global, parts: Vec<TemplatePart>) -> Result<Items<CoreLink>, AllocError>
    ensures { IfOk result (λ ls. ls ≡ flat_map template_links parts.items) }
{
    let mut left = VecDeque::from_vec(parts);
    let mut links = Items::new(alloc);
    while let Some(part) = left.pop_front() {
        push_part(alloc, part, &mut links)?;
    }
    Ok(links)
}

/// The texts and values from left to right; a value becomes a text as soon as it is evaluated.
pub fn lower_template(
    alloc: Global,
    first: Units,
    parts: Vec<TemplatePart>,
) -> Result<CoreExpr, AllocError>
    ensures { IfOk result (λ x. x ≡ template first parts.items) }
{
    let links = part_links(alloc, parts)?;
    let site = None;
    let head = CoreHead::Constant(Constant::Text(first));
    Ok(CoreExpr { site, head, links })
}
