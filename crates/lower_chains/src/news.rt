//! `new` (ECMA-262, 6th edition, 12.3.3).

ghost use Rattle.std.specs.Prelude.{map};
ghost use Rattle.lower_walk.specs.Handed.{done_at, HasExpressions};
ghost use Rattle.module_lowering.specs.Expressions.{new_value};
ghost use Rattle.module_lowering.specs.Lowered.{argument_lowered, expression_lowered};
ghost use Rattle.module_lowering.specs.Lowering.{Lowers};

use crate::sites::is_sited;
use core_ast::CoreExpr;
use es6_ast::{Argument, Expression};
use lower_references::lower_constructed;
use lower_walk::lower_items::lower_argument_list;
use lower_walk::lower_names::site_at;
use lower_walk::{Around, Here};
use lowering_rules::reference_rules::Reached;
use module_lowering::Lowerer;
use std::alloc::AllocError;

/// `new` of a callee with arguments, which begins at an offset in bytes.
#[tactic(auto, unfolding(lowering_rules::specs::reference_rules::References::value_of))]
pub fn lower_new<E: Fn(Around, &Expression, &mut Lowerer) -> Result<Reached, AllocError>, P, S, F>(
    here: &Here<'_, E, P, S, F>,
    begin: u32,
    callee: &Expression,
    arguments: &[Argument],
    state: &mut Lowerer,
) -> Result<CoreExpr, AllocError>
    requires expressions { HasExpressions E.pre E.post here.now }
    ensures { Lowers (done_at here.now.around (new_value begin (expression_lowered callee.now) (map argument_lowered arguments.now)) state.old) result state.new }
{
    let callee = here.value(callee, state)?;
    let parts = lower_argument_list(here, arguments, state)?;
    let site = site_at(is_sited(&callee), begin, here.around.context);
    lower_constructed(here.around.alloc, Reached::Value(callee), parts, site)
}
