//! `this` and `new.target` (ECMA-262, 6th edition, 12.2.2 and 12.3.8).

ghost use Rattle.std.specs.Prelude.{◌≡◌, IfOk};
ghost use Rattle.lower_chains.specs.Receivers.{GivesThis};
ghost use Rattle.lower_walk.specs.Handed.{done_at};
ghost use Rattle.module_lowering.specs.Expressions.{new_target, this_lowered, this_of};
ghost use Rattle.module_lowering.specs.Lowering.{Lowers};

use core_ast::{CoreExpr, Primitive, undefined, variable};
use lower_classes::lower_this;
use lower_parts::primitive;
use lower_walk::Here;
use lower_walk::lower_names::sees_this;
use module_lowering::{Lowerer, ThisKind};
use std::alloc::{AllocError, Global};

/// What `this` is made of; in a module it is undefined (8.1.1.5.4).
pub(crate) fn this_value(alloc: Global, this: ThisKind) -> Result<CoreExpr, AllocError>
    ensures { IfOk result (GivesThis this) }
{
    match this {
        ThisKind::OfModule => Ok(undefined(alloc)),
        ThisKind::OfFunction | ThisKind::OfMethod => lower_this(alloc, false),
        ThisKind::OfConstructor { derived } => lower_this(alloc, derived),
        ThisKind::OfGenerator { this } => Ok(variable(alloc, this)),
    }
}

/// A generator in which `this` is met keeps it.
pub(crate) fn meet_this(this: ThisKind, state: &mut Lowerer)
    ensures { state.new ≡ (this_of this state.old).1 }
{
    if let ThisKind::OfGenerator { .. } = this {
        sees_this(state);
    }
}

/// `this`.
pub fn lower_this_value<E, P, S, F>(
    here: &Here<'_, E, P, S, F>,
    state: &mut Lowerer,
) -> Result<CoreExpr, AllocError>
    ensures { Lowers (done_at here.now.around this_lowered state.old) result state.new }
{
    let kind = here.around.context.this;
    meet_this(kind, state);
    this_value(here.around.alloc, kind)
}

/// `new.target`; in what can't be constructed it is undefined.
pub fn lower_new_target<E, P, S, F>(here: &Here<'_, E, P, S, F>) -> CoreExpr
    ensures { result ≡ new_target here.now.around.context.now.this }
{
    let alloc = here.around.alloc;
    match here.around.context.this {
        ThisKind::OfFunction | ThisKind::OfConstructor { .. } => {
            primitive(alloc, Primitive::NewTarget)
        }
        ThisKind::OfModule | ThisKind::OfMethod | ThisKind::OfGenerator { .. } => undefined(alloc),
    }
}
