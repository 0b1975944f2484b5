//! What an expression begins with.

ghost use Rattle.std.specs.Prelude.{◌≡◌, [], Some, IfOk};
ghost use Rattle.emission_rules.specs.Expressions.{closure_emitted, closure_or_nothing, constant_emitted, global_name, head_emitted, named, this_emitted};
ghost use Rattle.emission_rules.specs.Nodes.{nowhere};
ghost use Rattle.emission_rules.specs.Scenes.{text_at};
ghost use Rattle.emit_expressions.specs.Giving.{Gives};
ghost use Rattle.es5_ast.specs.declared.tree.Expr5.TheVariants as expr;

use crate::current::{CurrentValue, framed};
use crate::leaves::{flag, integer, literal, name, nothing, nowhere, text, this};
use crate::operands::unary;
use crate::primitives::primitive_emitted;
use crate::scenes::{ask, frame_used, name_of, text_at};
use core_ast::{Constant, CoreHead, Global as GlobalName, Var};
use emission_rules::{Closure, Scene};
use es5_ast::{Expr5, Literal5, Property5, UnaryOperator5};
use es5_nodes::expressions;
use sqlite_items::{Boxed, Items};
use std::alloc::{AllocError, Global};

/// A value that is written down.
#[tactic(auto, unfolding(emission_rules::specs::Expressions::constant_emitted))]
fn constant_emitted(alloc: Global, constant: &Constant) -> Result<Boxed<Expr5>, AllocError>
    ensures { IfOk result (λ x. x ≡ constant_emitted constant.now) }
{
    match constant {
        Constant::Undefined => nothing(alloc),
        Constant::Null => literal(alloc, Literal5::Null),
        Constant::Truth(truth) => flag(alloc, *truth),
        Constant::Integer(value) => integer(alloc, *value),
        Constant::Text(units) => text(alloc, units.units()),
    }
}

/// What the global is called, as bytes.
#[tactic(auto, unfolding(emission_rules::specs::Expressions::global_name))]
fn global_name(global: GlobalName) -> &'static [u8]
    ensures { result.now ≡ global_name global }
{
    match global {
        GlobalName::ObjectGlobal => b"Object",
        GlobalName::ArrayGlobal => b"Array",
        GlobalName::StringGlobal => b"String",
        GlobalName::ErrorGlobal => b"Error",
        GlobalName::TypeErrorGlobal => b"TypeError",
        GlobalName::ReferenceErrorGlobal => b"ReferenceError",
        GlobalName::RangeErrorGlobal => b"RangeError",
    }
}

/// The variable under its name.
pub(crate) fn named(alloc: Global, scene: &Scene, var: Var) -> Result<Boxed<Expr5>, AllocError>
    ensures { IfOk result (λ x. x ≡ named scene.now var) }
{
    name(alloc, name_of(scene, var))
}

fn type_of(alloc: Global, scene: &Scene, var: Var) -> Result<Boxed<Expr5>, AllocError>
    ensures { IfOk result (λ x. x ≡ expr.Unary nowhere UnaryOperator5.Typeof (named scene.now var)) }
{
    unary(alloc, UnaryOperator5::Typeof, named(alloc, scene, var)?)
}

/// An array literal without elements.
fn empty_array(alloc: Global) -> Result<Boxed<Expr5>, AllocError>
    ensures { IfOk result (λ x. x ≡ expr.ArrayList nowhere []) }
{
    Ok(expressions::array(alloc, nowhere(), Items::new(alloc))?.into_value())
}

/// An object literal.
pub fn object(alloc: Global, properties: Items<Property5>) -> Result<Boxed<Expr5>, AllocError>
    ensures { IfOk result (λ x. x ≡ expr.ObjectList nowhere properties) }
{
    Ok(expressions::object(alloc, nowhere(), properties)?.into_value())
}

/// `this`, which is that of the frame where it isn't the function's own.
fn this_emitted(alloc: Global, scene: &mut Scene) -> Result<CurrentValue, AllocError>
    ensures { Gives result scene.new (this_emitted scene.old) }
{
    if scene.framed {
        ask(frame_used(), scene);
        return framed(alloc, b"self");
    }
    Ok(CurrentValue::shown(this(alloc)?))
}

fn closure_shown(
    alloc: Global,
    closure: Closure,
    scene: &mut Scene,
) -> Result<CurrentValue, AllocError>
    ensures { Gives result scene.new (closure_or_nothing (Some closure) scene.old) }
{
    let Closure { value, uses } = closure;
    ask(uses, scene);
    Ok(CurrentValue::shown(Boxed::new(alloc, value)?))
}

/// A closure is taken, and what it asks is asked of the function that holds it.
fn closure_emitted(
    alloc: Global,
    function: usize,
    scene: &mut Scene,
) -> Result<CurrentValue, AllocError>
    ensures { Gives result scene.new (closure_emitted function scene.old) }
{
    match scene.functions.take(function) {
        Some(closure) => closure_shown(alloc, closure, scene),
        None => Ok(CurrentValue::shown(nothing(alloc)?)),
    }
}

/// What an expression begins with.
#[tactic(auto, unfolding(emission_rules::specs::Expressions::head_emitted))]
pub fn head_emitted(
    alloc: Global,
    head: &CoreHead,
    scene: &mut Scene,
) -> Result<CurrentValue, AllocError>
    ensures { Gives result scene.new (head_emitted head.now scene.old) }
{
    let value = match head {
        CoreHead::Constant(constant) => constant_emitted(alloc, constant)?,
        CoreHead::Empty => name(alloc, b"empty")?,
        CoreHead::Variable(var) => named(alloc, scene, *var)?,
        CoreHead::TypeOf(var) => type_of(alloc, scene, *var)?,
        CoreHead::Global(global) => name(alloc, global_name(*global))?,
        CoreHead::Host(host) => name(alloc, text_at(scene.hosts.as_slice(), *host as usize))?,
        CoreHead::This => return this_emitted(alloc, scene),
        CoreHead::ArrayList | CoreHead::ArgumentList => empty_array(alloc)?,
        CoreHead::ObjectList => object(alloc, Items::new(alloc))?,
        CoreHead::Function(function) => return closure_emitted(alloc, function.0 as usize, scene),
        CoreHead::Primitive(primitive) => {
            return primitive_emitted(alloc, *primitive, Items::new(alloc), scene);
        }
        CoreHead::Copy(_) => nothing(alloc)?,
    };
    Ok(CurrentValue::shown(value))
}
