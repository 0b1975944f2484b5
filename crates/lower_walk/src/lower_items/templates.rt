//! Templates (ECMA-262, 6th edition, 12.2.9).

ghost use Rattle.std.specs.Prelude.{◌≡◌, ◌∷◌, map, IfOk};
ghost use Rattle.lower_walk.specs.Handed.{done_at, HasExpressions, LowersItems};
ghost use Rattle.module_lowering.specs.Expressions.{part_of, template_object_of, template_value};
ghost use Rattle.module_lowering.specs.Lowered.{template_lowered, template_part_lowered};
ghost use Rattle.module_lowering.specs.Lowering.{each_by, Lowers};

use crate::{Around, Here};
use core_ast::CoreExpr;
use es6_ast::{Expression, Template, TemplatePart};
use lower_params::lower_template;
use lower_tagged::template_object;
use lowering_rules::TemplatePart as MadePart;
use lowering_rules::reference_rules::Reached;
use module_lowering::Lowerer;
use shared_text::Units;
use sqlite_items::Items;
use std::alloc::{AllocError, Global};

/// A value, and the text behind it.
#[tactic(auto, using(crate::proofs::Layers::template_part_out))]
fn part<E: Fn(Around, &Expression, &mut Lowerer) -> Result<Reached, AllocError>, P, S, F>(
    here: &Here<'_, E, P, S, F>,
    part: &TemplatePart,
    state: &mut Lowerer,
) -> Result<MadePart, AllocError>
    requires expressions { HasExpressions E.pre E.post here.now }
    ensures { Lowers (done_at here.now.around (part_of (template_part_lowered part.now)) state.old) result state.new }
{
    let value = here.value(&part.value, state)?;
    let text = part.after.cooked.copy(here.around.alloc)?;
    Ok(MadePart { value, text })
}

fn parts<E: Fn(Around, &Expression, &mut Lowerer) -> Result<Reached, AllocError>, P, S, F>(
    here: &Here<'_, E, P, S, F>,
    written: &[TemplatePart],
    state: &mut Lowerer,
) -> Result<Vec<MadePart>, AllocError>
    requires expressions { HasExpressions E.pre E.post here.now }
    ensures { LowersItems (done_at here.now.around (each_by part_of (map template_part_lowered written.now)) state.old) result state.new }
{
    let mut made = Vec::new(here.around.alloc);
    for one in written {
        made.push(part(here, one, state)?)?;
    }
    Ok(made)
}

/// The value of a template: its texts and values, from left to right.
#[tactic(auto, using(crate::proofs::Layers::template_out))]
pub fn lower_template_value<
    E: Fn(Around, &Expression, &mut Lowerer) -> Result<Reached, AllocError>,
    P,
    S,
    F,
>(
    here: &Here<'_, E, P, S, F>,
    template: &Template,
    state: &mut Lowerer,
) -> Result<CoreExpr, AllocError>
    requires expressions { HasExpressions E.pre E.post here.now }
    ensures { Lowers (done_at here.now.around (template_value (template_lowered template.now)) state.old) result state.new }
{
    let alloc = here.around.alloc;
    let parts = parts(here, template.rest.as_slice(), state)?;
    let first = template.first.cooked.copy(alloc)?;
    lower_template(alloc, first, parts)
}

#[tactic(auto, using(crate::proofs::Layers::template_part_out))]
fn part_value<E: Fn(Around, &Expression, &mut Lowerer) -> Result<Reached, AllocError>, P, S, F>(
    here: &Here<'_, E, P, S, F>,
    part: &TemplatePart,
    state: &mut Lowerer,
) -> Result<CoreExpr, AllocError>
    requires expressions { HasExpressions E.pre E.post here.now }
    ensures { Lowers (done_at here.now.around (template_part_lowered part.now).value state.old) result state.new }
{
    here.value(&part.value, state)
}

fn part_values<E: Fn(Around, &Expression, &mut Lowerer) -> Result<Reached, AllocError>, P, S, F>(
    here: &Here<'_, E, P, S, F>,
    parts: &[TemplatePart],
    state: &mut Lowerer,
) -> Result<Items<CoreExpr>, AllocError>
    requires expressions { HasExpressions E.pre E.post here.now }
    ensures { Lowers (done_at here.now.around (each_by (λ p. p.value) (map template_part_lowered parts.now)) state.old) result state.new }
{
    let mut values = Items::new(here.around.alloc);
    for part in parts {
        values.push(part_value(here, part, state)?)?;
    }
    Ok(values)
}

/// The values of a template alone, from left to right, with which its tag is called.
#[tactic(auto, using(crate::proofs::Layers::template_out))]
pub fn lower_template_values<
    E: Fn(Around, &Expression, &mut Lowerer) -> Result<Reached, AllocError>,
    P,
    S,
    F,
>(
    here: &Here<'_, E, P, S, F>,
    template: &Template,
    state: &mut Lowerer,
) -> Result<Items<CoreExpr>, AllocError>
    requires expressions { HasExpressions E.pre E.post here.now }
    ensures { Lowers (done_at here.now.around (each_by (λ p. p.value) (template_lowered template.now).rest) state.old) result state.new }
{
    part_values(here, template.rest.as_slice(), state)
}

/// A text behind a value, as it means.
#[tactic(auto, using(crate::proofs::Layers::template_part_out))]
fn cooked_text(alloc: Global, part: &TemplatePart) -> Result<Units, AllocError>
    ensures { IfOk result (λ text. text ≡ (template_part_lowered part.now).after.cooked) }
{
    part.after.cooked.copy(alloc)
}

/// The texts of a template, as they mean.
fn cooked_texts(
    alloc: Global,
    first: &Units,
    rest: &[TemplatePart],
) -> Result<Vec<Units>, AllocError>
    ensures { IfOk result (λ texts. texts.items ≡ first.now ∷ map (λ p. p.after.cooked) (map template_part_lowered rest.now)) }
{
    let mut texts = Vec::new(alloc);
    texts.push(first.copy(alloc)?)?;
    for part in rest {
        texts.push(cooked_text(alloc, part)?)?;
    }
    Ok(texts)
}

/// A text behind a value, as it is written.
#[tactic(auto, using(crate::proofs::Layers::template_part_out))]
fn raw_text(alloc: Global, part: &TemplatePart) -> Result<Units, AllocError>
    ensures { IfOk result (λ text. text ≡ (template_part_lowered part.now).after.raw) }
{
    part.after.raw.copy(alloc)
}

/// The texts of a template, as they are written.
fn raw_texts(alloc: Global, first: &Units, rest: &[TemplatePart]) -> Result<Vec<Units>, AllocError>
    ensures { IfOk result (λ texts. texts.items ≡ first.now ∷ map (λ p. p.after.raw) (map template_part_lowered rest.now)) }
{
    let mut texts = Vec::new(alloc);
    texts.push(first.copy(alloc)?)?;
    for part in rest {
        texts.push(raw_text(alloc, part)?)?;
    }
    Ok(texts)
}

/// The object of the texts of a template, with which its tag is called first (12.2.9.3).
#[tactic(auto, using(crate::proofs::Layers::template_out))]
pub fn template_object_of(alloc: Global, template: &Template) -> Result<CoreExpr, AllocError>
    ensures { IfOk result (λ x. x ≡ template_object_of (template_lowered template.now)) }
{
    let cooked = cooked_texts(alloc, &template.first.cooked, template.rest.as_slice())?;
    let raw = raw_texts(alloc, &template.first.raw, template.rest.as_slice())?;
    template_object(alloc, cooked, raw)
}
