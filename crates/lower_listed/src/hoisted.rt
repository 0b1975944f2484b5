//! Functions that are made where their scope begins (ECMA-262, 6th edition, 9.2.12 and 13.2.13).

ghost use Rattle.std.specs.Prelude.{◌≡◌, map, IfOk};
ghost use Rattle.lower_listed.specs.Hoisted.{hoisted_of};
ghost use Rattle.lower_walk.specs.Handed.{done_at, HasFunctions};
ghost use Rattle.lower_walk.specs.lower_names.Counting.{kept};
ghost use Rattle.module_lowering.specs.Functions.{all_hoisted, body_hoisted, hoisted};
ghost use Rattle.module_lowering.specs.Lowering.{Lowers};

use crate::functions::HoistedAt;
use crate::statements::scope_places;
use core_ast::{Declared, FunctionId};
use es6_ast::Function;
use lower_walk::{Around, Here};
use module_lowering::{FunctionForm, Lowerer};
use sqlite_items::Items;
use std::alloc::{AllocError, Global};

/// Those that are marked.
#[tactic(auto, using(crate::proofs::Kept::kept_end, crate::proofs::Kept::kept_marked, crate::proofs::Kept::kept_unmarked))]
fn marked<'a>(
    alloc: Global,
    marks: &[bool],
    functions: &[HoistedAt<'a>],
) -> Result<Items<HoistedAt<'a>>, AllocError>
    ensures { IfOk result (λ hs. map hoisted_of hs ≡ kept marks.now (map hoisted_of functions.now)) }
{
    let mut kept = Items::new(alloc);
    let mut left = marks;
    for function in functions {
        let Some((mark, rest)) = left.split_first() else {
            return Ok(kept);
        };
        left = rest;
        if !*mark {
            continue;
        }
        kept.push(HoistedAt {
            at: function.at,
            function: function.function,
        })?;
    }
    Ok(kept)
}

fn lower_one<
    E,
    P,
    S,
    F: Fn(Around, &Function, FunctionForm, &mut Lowerer) -> Result<FunctionId, AllocError>,
>(
    here: &Here<'_, E, P, S, F>,
    function: &HoistedAt,
    state: &mut Lowerer,
) -> Result<Declared, AllocError>
    requires functions { HasFunctions F.pre F.post here.now }
    ensures { Lowers (done_at here.now.around (hoisted (hoisted_of function.now)) state.old) result state.new }
{
    let made = here.made(function.function, FunctionForm::PlainForm, state)?;
    let around = here.around;
    let var = around.bindings.declared_var(around.context, function.at)?;
    Ok(Declared {
        var,
        function: made,
    })
}

/// Functions with the variables that their declarations declare.
pub fn lower_hoisted<
    E,
    P,
    S,
    F: Fn(Around, &Function, FunctionForm, &mut Lowerer) -> Result<FunctionId, AllocError>,
>(
    here: &Here<'_, E, P, S, F>,
    functions: &[HoistedAt],
    state: &mut Lowerer,
) -> Result<Items<Declared>, AllocError>
    requires functions { HasFunctions F.pre F.post here.now }
    ensures { Lowers (done_at here.now.around (all_hoisted (map hoisted_of functions.now)) state.old) result state.new }
{
    let mut made = Items::new(here.around.alloc);
    for function in functions {
        made.push(lower_one(here, function, state)?)?;
    }
    Ok(made)
}

/// The same of those of a body, where of several under one name the last counts (9.2.12, step 10).
#[tactic(auto, using(lower_walk::proofs::lower_names::Counted::last_ones_kept))]
pub fn lower_body_hoisted<
    E,
    P,
    S,
    F: Fn(Around, &Function, FunctionForm, &mut Lowerer) -> Result<FunctionId, AllocError>,
>(
    here: &Here<'_, E, P, S, F>,
    functions: &[HoistedAt],
    state: &mut Lowerer,
) -> Result<Items<Declared>, AllocError>
    requires functions { HasFunctions F.pre F.post here.now }
    ensures { Lowers (done_at here.now.around (body_hoisted (map hoisted_of functions.now)) state.old) result state.new }
{
    let around = here.around;
    let ats = scope_places(around.alloc, &[], functions)?;
    let marks = around
        .bindings
        .counting(around.alloc, around.context, ats.as_slice())?;
    let counting = marked(around.alloc, marks.as_slice(), functions)?;
    lower_hoisted(here, counting.as_slice(), state)
}
