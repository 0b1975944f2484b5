//! Primitives: calls of helpers, which are handed first what a function gives to what stands in it, then the operands.

ghost use Rattle.std.specs.Prelude.{◌≡◌, ◌∷◌, ◌++◌, [], IfOk};
ghost use Rattle.emission_rules.specs.Nodes.{name};
ghost use Rattle.emission_rules.specs.Primitives.{arguments_given, arguments_name, framed, generator_made, guarded, helped, or_nothing, primitive_emitted, rest_listed, shown, target_key, with_frame, with_own};
ghost use Rattle.emission_rules.specs.Scenes.{asking, gives, guard_used, target_used};
ghost use Rattle.emit_expressions.specs.Giving.{Gives};

use crate::chains::applied;
use crate::current::{CurrentValue, framed, helped};
use crate::helpers::helper_name;
use crate::leaves::{name, nothing};
use crate::operands::stored;
use crate::scenes::{ask, frame_used, guard_used, own_used, passed_used, target_used};
use core_ast::Primitive;
use emission_rules::Scene;
use es5_ast::Expr5;
use es5_nodes::lists::push;
use sqlite_items::{Boxed, Items};
use std::alloc::{AllocError, Global};
use std::mem;

/// The operands with one in front.
pub(crate) fn in_front(
    alloc: Global,
    first: Boxed<Expr5>,
    operands: Items<Expr5>,
) -> Result<Items<Expr5>, AllocError>
    ensures { IfOk result (λ xs. xs ≡ first ∷ operands) }
{
    let mut all = Items::new(alloc);
    push(&mut all, first)?;
    all.append(operands)?;
    Ok(all)
}

/// The primitive's helper, handed first what has this name.
fn helped_with(
    alloc: Global,
    primitive: Primitive,
    text: &[u8],
    operands: Items<Expr5>,
) -> Result<CurrentValue, AllocError>
    ensures { IfOk result (λ c. c ≡ helped primitive (name text.now ∷ operands)) }
{
    let first = name(alloc, text)?;
    helped(alloc, primitive, in_front(alloc, first, operands)?)
}

pub(crate) fn or_nothing(
    alloc: Global,
    value: Option<Boxed<Expr5>>,
) -> Result<Boxed<Expr5>, AllocError>
    ensures { IfOk result (λ x. x ≡ or_nothing value) }
{
    match value {
        Some(value) => Ok(value),
        None => nothing(alloc),
    }
}

/// The frame becomes what the guard gives.
fn guarded(alloc: Global, operands: Items<Expr5>) -> Result<Boxed<Expr5>, AllocError>
    ensures { IfOk result (λ x. x ≡ guarded operands) }
{
    let operands = in_front(alloc, name(alloc, b"callee")?, operands)?;
    let guard = applied(alloc, helper_name(Primitive::ClassGuard), operands)?;
    stored(alloc, name(alloc, b"frame")?, guard)
}

fn class_guarded(
    alloc: Global,
    operands: Items<Expr5>,
    scene: &mut Scene,
) -> Result<CurrentValue, AllocError>
    ensures { Gives result scene.new (gives (shown (guarded operands)) (asking guard_used scene.old)) }
{
    ask(guard_used(), scene);
    Ok(CurrentValue::shown(guarded(alloc, operands)?))
}

fn new_target(alloc: Global, scene: &mut Scene) -> Result<CurrentValue, AllocError>
    ensures { Gives result scene.new (gives (framed target_key) (asking target_used scene.old)) }
{
    ask(target_used(), scene);
    framed(alloc, b"target")
}

fn with_frame(
    alloc: Global,
    primitive: Primitive,
    operands: Items<Expr5>,
    scene: &mut Scene,
) -> Result<CurrentValue, AllocError>
    ensures { Gives result scene.new (with_frame primitive operands scene.old) }
{
    ask(frame_used(), scene);
    helped_with(alloc, primitive, b"frame", operands)
}

fn with_own(
    alloc: Global,
    primitive: Primitive,
    operands: Items<Expr5>,
    scene: &mut Scene,
) -> Result<CurrentValue, AllocError>
    ensures { Gives result scene.new (with_own primitive operands scene.old) }
{
    ask(own_used(), scene);
    helped_with(alloc, primitive, b"callee", operands)
}

/// Under what name a function has its arguments.
fn arguments_given(scene: &Scene) -> &'static [u8]
    ensures { result.now ≡ arguments_given scene.now }
{
    if scene.keeps { b"passed" } else { b"arguments" }
}

fn rest_listed(
    alloc: Global,
    operands: Items<Expr5>,
    scene: &mut Scene,
) -> Result<CurrentValue, AllocError>
    ensures { Gives result scene.new (rest_listed operands scene.old) }
{
    ask(passed_used(), scene);
    helped_with(alloc, Primitive::RestList, arguments_given(scene), operands)
}

/// The arguments object, of the function's arguments.
fn with_arguments(alloc: Global, operands: Items<Expr5>) -> Result<CurrentValue, AllocError>
    ensures { IfOk result (λ c. c ≡ helped Primitive.ArgumentsPut (name arguments_name ∷ operands)) }
{
    helped_with(alloc, Primitive::ArgumentsPut, b"arguments", operands)
}

/// The step of the generator, which is taken.
fn step_taken(alloc: Global, step: Option<Expr5>) -> Result<Boxed<Expr5>, AllocError>
    ensures { IfOk result (λ x. x ≡ or_nothing step) }
{
    match step {
        Some(step) => Boxed::new(alloc, step),
        None => nothing(alloc),
    }
}

/// A generator is made of its function and of the step.
fn generator_made(
    alloc: Global,
    operands: Items<Expr5>,
    scene: &mut Scene,
) -> Result<CurrentValue, AllocError>
    ensures { Gives result scene.new (generator_made operands scene.old) }
{
    let step = step_taken(alloc, mem::replace(&mut scene.step, None))?;
    let operands = in_front(alloc, step, operands)?;
    ask(own_used(), scene);
    helped_with(alloc, Primitive::GeneratorMake, b"callee", operands)
}

/// The call of the primitive's helper with these operands.
#[tactic(auto, unfolding(emission_rules::specs::Primitives::primitive_emitted))]
pub(crate) fn primitive_emitted(
    alloc: Global,
    primitive: Primitive,
    operands: Items<Expr5>,
    scene: &mut Scene,
) -> Result<CurrentValue, AllocError>
    ensures { Gives result scene.new (primitive_emitted primitive operands scene.old) }
{
    match primitive {
        Primitive::ClassGuard => class_guarded(alloc, operands, scene),
        Primitive::NewTarget => new_target(alloc, scene),
        Primitive::SuperConstruct | Primitive::ThisBind => with_frame(
            alloc, primitive, operands, scene,
        ),
        Primitive::SuperGet => with_own(alloc, primitive, operands, scene),
        Primitive::RestList => rest_listed(alloc, operands, scene),
        Primitive::ArgumentsPut => with_arguments(alloc, operands),
        Primitive::GeneratorMake => generator_made(alloc, operands, scene),
        _ => helped(alloc, primitive, operands),
    }
}
