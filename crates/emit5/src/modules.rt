//! Modules: what they begin with, and their bodies, are functions of their own that are called at once.

ghost use Rattle.std.specs.Prelude.{◌≡◌, IfOk, OnOk};
ghost use Rattle.emission_rules.specs.Functions.{at_once, bodies, body_at, instantiations, module_emitted};
ghost use Rattle.emission_rules.specs.Scenes.{gives};

use crate::declarations::push_frame;
use crate::functions::{behind, enter};
use crate::statements::expression;
use crate::walk::block;
use core_ast::{CoreKind, CorePart, CoreStat};
use emission_rules::{Scene, Uses};
use emit_expressions::{called, function};
use es5_ast::Stat5;
use sqlite_items::Items;
use std::alloc::{AllocError, Global};

/// A function of these statements, which is called at once.
fn at_once(alloc: Global, statements: Items<Stat5>, uses: Uses) -> Result<Stat5, AllocError>
    ensures { IfOk result (λ s. s ≡ at_once statements uses) }
{
    let mut declared = Items::new(alloc);
    push_frame(alloc, CoreKind::Plain, uses, &mut declared)?;
    let body = behind(alloc, declared, statements)?;
    let made = function(alloc, None, Items::new(alloc), body)?;
    Ok(expression(called(alloc, made, Items::new(alloc), None)?))
}

/// What a module begins with, or its body: a function that is called at once, and nothing for no statements.
pub fn module(
    alloc: Global,
    source: &[CoreStat],
    scene: &mut Scene,
    out: &mut Items<Stat5>,
) -> Result<(), AllocError>
    ensures { OnOk result (gives out.new scene.new ≡ module_emitted source.now out.old scene.old) }
{
    if source.is_empty() {
        return Ok(());
    }
    enter(false, false, scene);
    let statements = block(alloc, source, scene)?;
    out.push(at_once(alloc, statements, scene.uses)?)
}

/// What the modules begin with, in load order.
pub(crate) fn instantiations(
    alloc: Global,
    parts: &[CorePart],
    scene: &mut Scene,
    out: &mut Items<Stat5>,
) -> Result<(), AllocError>
    ensures { OnOk result (gives out.new scene.new ≡ instantiations parts.now out.old scene.old) }
{
    for part in parts {
        module(alloc, part.instantiate.as_slice(), scene, out)?;
    }
    Ok(())
}

fn body_at(parts: &[CorePart], number: u32) -> &[CoreStat]
    ensures { result.now ≡ body_at parts.now number }
{
    match parts.get(number as usize) {
        Some(part) => part.body.as_slice(),
        None => &[],
    }
}

/// The bodies of the modules, in the order of evaluation.
pub(crate) fn bodies(
    alloc: Global,
    parts: &[CorePart],
    order: &[u32],
    scene: &mut Scene,
    out: &mut Items<Stat5>,
) -> Result<(), AllocError>
    ensures { OnOk result (gives out.new scene.new ≡ bodies parts.now order.now out.old scene.old) }
{
    for number in order {
        module(alloc, body_at(parts, *number), scene, out)?;
    }
    Ok(())
}
