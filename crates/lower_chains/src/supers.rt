//! `super` (ECMA-262, 6th edition, 12.3.5): the name of a property, converted to a key, and then `this`.

ghost use Rattle.std.specs.Prelude.{◌≡◌, map, IfOk};
ghost use Rattle.lower_walk.specs.Handed.{done_at, HasExpressions};
ghost use Rattle.lowering_rules.specs.Making.{text};
ghost use Rattle.module_lowering.specs.Expressions.{index_key, inherited, key_value, super_called};
ghost use Rattle.module_lowering.specs.Lowered.{argument_lowered, expression_lowered};
ghost use Rattle.module_lowering.specs.Lowering.{Lowers, pure};
ghost use Rattle.module_lowering.specs.Names.{units_of};

use crate::receivers::{meet_this, this_value};
use core_ast::{CoreExpr, Primitive, undefined};
use es6_ast::{Argument, Expression, Identifier};
use lower_classes::lower_super_call;
use lower_parts::{text, through_with, to_text};
use lower_walk::lower_items::lower_argument_list;
use lower_walk::lower_names::units_of;
use lower_walk::{Around, Here, iterator_text};
use lowering_rules::reference_rules::{MemberName, Reached};
use module_lowering::Lowerer;
use std::alloc::{AllocError, Global};

/// The property of `super` with this key.
fn lower_inherited<E, P, S, F>(
    here: &Here<'_, E, P, S, F>,
    key: CoreExpr,
    state: &mut Lowerer,
) -> Result<Reached, AllocError>
    ensures { Lowers (done_at here.now.around (inherited (pure key)) state.old) result state.new }
{
    let alloc = here.around.alloc;
    let kind = here.around.context.this;
    meet_this(kind, state);
    let value = through_with(alloc, key, Primitive::SuperGet, this_value(alloc, kind)?)?;
    let this = this_value(alloc, kind)?;
    Ok(Reached::Inherited { value, this })
}

/// `super.k`
pub fn lower_super_member<E, P, S, F>(
    here: &Here<'_, E, P, S, F>,
    name: &Identifier,
    state: &mut Lowerer,
) -> Result<Reached, AllocError>
    ensures { Lowers (done_at here.now.around (inherited (pure (text (units_of name.now.name)))) state.old) result state.new }
{
    let alloc = here.around.alloc;
    let units = units_of(alloc, name.name.bytes())?;
    lower_inherited(here, text(alloc, units), state)
}

/// The key that an expression in brackets gives, which is never a written name.
#[tactic(auto, unfolding(module_lowering::specs::Expressions::key_value))]
fn key_value(alloc: Global, name: MemberName) -> Result<CoreExpr, AllocError>
    ensures { IfOk result (λ x. x ≡ key_value name) }
{
    match name {
        MemberName::Named(_) => Ok(undefined(alloc)),
        MemberName::Indexed(value) => to_text(alloc, value),
        MemberName::AtIterator => Ok(text(alloc, iterator_text(alloc)?)),
    }
}

/// `super[k]`
pub fn lower_super_index<
    E: Fn(Around, &Expression, &mut Lowerer) -> Result<Reached, AllocError>,
    P,
    S,
    F,
>(
    here: &Here<'_, E, P, S, F>,
    index: &Expression,
    state: &mut Lowerer,
) -> Result<Reached, AllocError>
    requires expressions { HasExpressions E.pre E.post here.now }
    ensures { Lowers (done_at here.now.around (inherited (index_key (expression_lowered index.now))) state.old) result state.new }
{
    let name = here.indexed(index, state)?;
    let key = key_value(here.around.alloc, name)?;
    lower_inherited(here, key, state)
}

/// `super(..)`
pub fn lower_super_called<
    E: Fn(Around, &Expression, &mut Lowerer) -> Result<Reached, AllocError>,
    P,
    S,
    F,
>(
    here: &Here<'_, E, P, S, F>,
    arguments: &[Argument],
    state: &mut Lowerer,
) -> Result<CoreExpr, AllocError>
    requires expressions { HasExpressions E.pre E.post here.now }
    ensures { Lowers (done_at here.now.around (super_called (map argument_lowered arguments.now)) state.old) result state.new }
{
    let parts = lower_argument_list(here, arguments, state)?;
    lower_super_call(here.around.alloc, parts)
}
