//! Functions inside others, which have temporaries of their own.

ghost use Rattle.std.specs.Prelude.{◌≡◌, map};
ghost use Rattle.lower_functions.specs.Bodies.{body_listed};
ghost use Rattle.lower_functions.specs.Insides.{left_with};
ghost use Rattle.lower_walk.specs.Handed.{done_at, HasExpressions, HasFunctions, HasPatterns, HasStatements};
ghost use Rattle.module_lowering.specs.Functions.{function_parts};
ghost use Rattle.module_lowering.specs.Lowered.{parameter_lowered};
ghost use Rattle.module_lowering.specs.Lowering.{entered, inside, inside_arrow, Lowers};

use crate::bodies::Body;
use crate::parts::FunctionParts;
use crate::walk::Walk;
use core_ast::{CoreExpr, CoreStat, FunctionId, Var};
use es6_ast::{Expression, Function, Parameter, Pattern, Statement};
use lower_walk::Around;
use lowering_rules::reference_rules::Reached;
use module_lowering::{FunctionForm, Lowerer, Role, Seen};
use sqlite_items::Items;
use std::alloc::{AllocError, Global};
use std::marker::Model;
use std::mem;

/// What is made of a function's parts, its temporaries, and what was met in it.
#[derive(Drop)]
pub(crate) struct Inside {
    pub value: FunctionParts,
    pub locals: Items<Var>,
    pub seen: Seen,
}

impl Model for Inside {
    ghost use Rattle.std.specs.Coded.{codes};
    ghost use Rattle.core_ast.specs.contracts.tree.CoreExpr as expression;
    ghost use Rattle.core_ast.specs.contracts.tree.CoreStat as statement;
    ghost use Rattle.module_lowering.specs.Functions.{FunctionParts as PartsMade};
    ghost use Rattle.module_lowering.specs.Lowering.{Inside as InsideMade};

    ghost Value = { InsideMade PartsMade };

    ghost coded = { Prim.hlevel (codes, expression.the_row.coded, statement.the_row.coded) };

    ghost view = { λ x. record { value = x.value; locals = x.locals; seen = x.seen } };
}

/// A function begins in which this was met already. What is given are the temporaries of the function round it.
fn enter(alloc: Global, seen: Seen, state: &mut Lowerer) -> Items<Var>
    ensures entered { state.new ≡ entered seen state.old }
    ensures locals { result ≡ state.old.names.locals }
{
    state.seen = seen;
    mem::replace(&mut state.names.locals, Items::new(alloc))
}

/// The function ends, and the one round it goes on with its temporaries and with what was met in it.
fn leave(value: FunctionParts, locals: Items<Var>, seen: Seen, state: &mut Lowerer) -> Inside
    ensures { left_with locals seen (value, state.old) ≡ (result, state.new) }
{
    let met = state.seen;
    state.seen = seen;
    let locals = mem::replace(&mut state.names.locals, locals);
    Inside {
        value,
        locals,
        seen: met,
    }
}

impl<
    E: Fn(Around, &Expression, &mut Lowerer) -> Result<Reached, AllocError>,
    P: Fn(Around, &Pattern, Role, CoreExpr, &mut Lowerer) -> Result<Items<CoreStat>, AllocError>,
    S: Fn(Around, &Statement, &mut Lowerer) -> Result<Items<CoreStat>, AllocError>,
    F: Fn(Around, &Function, FunctionForm, &mut Lowerer) -> Result<FunctionId, AllocError>,
> Walk<'_, E, P, S, F> {
    /// The parts of a function that is no arrow.
    pub fn inside(
        &self,
        parameters: &[Parameter],
        body: &Body,
        state: &mut Lowerer,
    ) -> Result<Inside, AllocError>
        requires expressions { HasExpressions E.pre E.post self.now.here }
        requires patterns { HasPatterns P.pre P.post self.now.here }
        requires statements { HasStatements S.pre S.post self.now.here }
        requires functions { HasFunctions F.pre F.post self.now.here }
        ensures { Lowers (done_at self.now.here.around (inside (function_parts (map parameter_lowered parameters.now) (body_listed body.now))) state.old) result state.new }
    {
        let outer = state.seen;
        let unseen = Seen {
            this: false,
            arguments: false,
        };
        let locals = enter(self.here.around.alloc, unseen, state);
        let parts = self.function_parts(parameters, body, state)?;
        Ok(leave(parts, locals, outer, state))
    }

    /// The parts of an arrow. What it meets is met in the function round it.
    pub fn inside_arrow(
        &self,
        parameters: &[Parameter],
        body: &Body,
        state: &mut Lowerer,
    ) -> Result<Inside, AllocError>
        requires expressions { HasExpressions E.pre E.post self.now.here }
        requires patterns { HasPatterns P.pre P.post self.now.here }
        requires statements { HasStatements S.pre S.post self.now.here }
        requires functions { HasFunctions F.pre F.post self.now.here }
        ensures { Lowers (done_at self.now.here.around (inside_arrow (function_parts (map parameter_lowered parameters.now) (body_listed body.now))) state.old) result state.new }
    {
        let locals = enter(self.here.around.alloc, state.seen, state);
        let parts = self.function_parts(parameters, body, state)?;
        let met = state.seen;
        Ok(leave(parts, locals, met, state))
    }
}
