//! Expressions: one cycle over two of the four types, since no statement stands in an expression by now.

ghost use Rattle.std.specs.Prelude.{◌≡◌, map};
ghost use Rattle.std.specs.Option.{option_map};
ghost use Rattle.emit_expressions.specs.Giving.{Gives};
ghost use Rattle.emission_rules.specs.Emission.{expr_emitted, exprs_emitted, link_emitted};
ghost use Rattle.emission_rules.specs.Scenes.{present, threaded};

use core_ast::{CoreExpr, CoreLink};
use emission_rules::Scene;
use emit_expressions::{CurrentValue, head_emitted, lazy_emitted, op_emitted};
use es5_ast::Expr5;
use sqlite_items::{Boxed, Items};
use std::alloc::{AllocError, Global};

#[cycle(values)]
pub(crate) fn expr(
    alloc: Global,
    source: &CoreExpr,
    scene: &mut Scene,
) -> Result<Boxed<Expr5>, AllocError>
    ensures { Gives result scene.new (expr_emitted source.now scene.old) }
{
    let begun = head_emitted(alloc, &source.head, scene)?;
    let made = links(alloc, source.links.as_slice(), begun, scene)?;
    Ok(made.into_value())
}

#[cycle(values)]
fn links(
    alloc: Global,
    source: &[CoreLink],
    begun: CurrentValue,
    scene: &mut Scene,
) -> Result<CurrentValue, AllocError>
    ensures { Gives result scene.new (threaded (map link_emitted source.now) begun scene.old) }
{
    let mut current = begun;
    for one in source {
        current = link(alloc, one, current, scene)?;
    }
    Ok(current)
}

#[cycle(values)]
fn link(
    alloc: Global,
    source: &CoreLink,
    current: CurrentValue,
    scene: &mut Scene,
) -> Result<CurrentValue, AllocError>
    ensures { Gives result scene.new (link_emitted source.now current scene.old) }
{
    match source {
        CoreLink::Strict { op, parts, site } => {
            let parts = exprs(alloc, parts.as_slice(), scene)?;
            op_emitted(alloc, op, parts, *site, current, scene)
        }
        CoreLink::Lazy { when, yes, no } => {
            let branch = expr(alloc, yes.get(), scene)?;
            let other = match no {
                Some(no) => Some(expr(alloc, no.get(), scene)?),
                None => None,
            };
            lazy_emitted(alloc, *when, branch, other, current)
        }
        CoreLink::Run { .. } => Ok(current),
    }
}

#[cycle(values)]
fn exprs(alloc: Global, source: &[CoreExpr], scene: &mut Scene) -> Result<Items<Expr5>, AllocError>
    ensures { Gives result scene.new (exprs_emitted source.now scene.old) }
{
    let mut made = Items::new(alloc);
    for one in source {
        made.push(expr(alloc, one, scene)?.into_inner())?;
    }
    Ok(made)
}

/// One that may be absent.
pub(crate) fn optional(
    alloc: Global,
    source: &Option<CoreExpr>,
    scene: &mut Scene,
) -> Result<Option<Boxed<Expr5>>, AllocError>
    ensures { Gives result scene.new (present (option_map expr_emitted source.now) scene.old) }
{
    match source {
        Some(source) => Ok(Some(expr(alloc, source, scene)?)),
        None => Ok(None),
    }
}
