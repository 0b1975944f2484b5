//! Lists of arguments and of array elements (ECMA-262, 6th edition, 12.2.5 and 12.3.6).

ghost use Rattle.std.specs.Prelude.{map};
ghost use Rattle.lower_walk.specs.Handed.{done_at, HasExpressions, LowersItems};
ghost use Rattle.module_lowering.specs.Lowered.{argument_lowered, element_lowered};
ghost use Rattle.module_lowering.specs.Lowering.{each, Lowers};

use crate::{Around, Here};
use es6_ast::{Argument, Element, Expression};
use lowering_rules::ListPart;
use lowering_rules::reference_rules::Reached;
use module_lowering::Lowerer;
use std::alloc::AllocError;

/// An argument, or an element that is no hole.
#[tactic(auto, unfolding(module_lowering::specs::Lowered::argument_lowered, module_lowering::specs::Lowered::expression_lowered))]
fn argument<E: Fn(Around, &Expression, &mut Lowerer) -> Result<Reached, AllocError>, P, S, F>(
    here: &Here<'_, E, P, S, F>,
    argument: &Argument,
    state: &mut Lowerer,
) -> Result<ListPart, AllocError>
    requires expressions { HasExpressions E.pre E.post here.now }
    ensures { Lowers (done_at here.now.around (argument_lowered argument.now) state.old) result state.new }
{
    match argument {
        Argument::Single(value) => Ok(ListPart::Single(here.value(value, state)?)),
        Argument::Spread { value, .. } => Ok(ListPart::Spread(here.value(value, state)?)),
    }
}

/// The arguments of a call, from left to right.
pub fn lower_argument_list<
    E: Fn(Around, &Expression, &mut Lowerer) -> Result<Reached, AllocError>,
    P,
    S,
    F,
>(
    here: &Here<'_, E, P, S, F>,
    arguments: &[Argument],
    state: &mut Lowerer,
) -> Result<Vec<ListPart>, AllocError>
    requires expressions { HasExpressions E.pre E.post here.now }
    ensures { LowersItems (done_at here.now.around (each (map argument_lowered arguments.now)) state.old) result state.new }
{
    let mut parts = Vec::new(here.around.alloc);
    for one in arguments {
        parts.push(argument(here, one, state)?)?;
    }
    Ok(parts)
}

#[tactic(auto, unfolding(module_lowering::specs::Lowered::argument_lowered, module_lowering::specs::Lowered::element_lowered))]
fn element<E: Fn(Around, &Expression, &mut Lowerer) -> Result<Reached, AllocError>, P, S, F>(
    here: &Here<'_, E, P, S, F>,
    element: &Element,
    state: &mut Lowerer,
) -> Result<ListPart, AllocError>
    requires expressions { HasExpressions E.pre E.post here.now }
    ensures { Lowers (done_at here.now.around (element_lowered element.now) state.old) result state.new }
{
    match element {
        Element::Hole => Ok(ListPart::Missing),
        Element::Present(one) => argument(here, one, state),
    }
}

/// The elements of an array literal, from left to right.
pub fn lower_element_list<
    E: Fn(Around, &Expression, &mut Lowerer) -> Result<Reached, AllocError>,
    P,
    S,
    F,
>(
    here: &Here<'_, E, P, S, F>,
    elements: &[Element],
    state: &mut Lowerer,
) -> Result<Vec<ListPart>, AllocError>
    requires expressions { HasExpressions E.pre E.post here.now }
    ensures { LowersItems (done_at here.now.around (each (map element_lowered elements.now)) state.old) result state.new }
{
    let mut parts = Vec::new(here.around.alloc);
    for one in elements {
        parts.push(element(here, one, state)?)?;
    }
    Ok(parts)
}
