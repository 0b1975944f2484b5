//! The walkers. Each ends since `room` falls; where none is left, memory is out, as no tree of so many levels fits into it.

ghost use Rattle.lower_walk.specs.Handed.{done_at};
ghost use Rattle.module_lowering.specs.Lowered.{expression_lowered, function_lowered, pattern_lowered, statement_lowered};
ghost use Rattle.module_lowering.specs.Lowering.{Lowers};

use core_ast::{CoreExpr, CoreStat, FunctionId};
use es6_ast::{Expression, Function, Pattern, Statement};
use lower_expressions::lower_reached;
use lower_flow::lower_statement;
use lower_functions::lower_function;
use lower_targets::lower_bound;
use lower_walk::{Around, Here};
use lowering_rules::reference_rules::Reached;
use module_lowering::{FunctionForm, Lowerer, Role};
use sqlite_items::Items;
use std::alloc::AllocError;

/// What an expression comes to (ECMA-262, 6th edition, 12).
#[cycle(walk)]
pub fn walk_expression(
    around: Around,
    expression: &Expression,
    state: &mut Lowerer,
) -> Result<Reached, AllocError>
    ensures { Lowers (done_at around.entry (expression_lowered expression.now).reached state.old) result state.new }
{
    if around.room == 0 {
        return Err(AllocError);
    }
    let here = Here {
        around: around.inner(),
        expression: &walk_expression,
        pattern: &walk_pattern,
        statement: &walk_statement,
        function: &walk_function,
    };
    lower_reached(&here, expression, state)
}

/// The statements by which a pattern takes a value (12.14.5, 13.3.3).
#[cycle(walk)]
pub fn walk_pattern(
    around: Around,
    pattern: &Pattern,
    role: Role,
    value: CoreExpr,
    state: &mut Lowerer,
) -> Result<Items<CoreStat>, AllocError>
    ensures { Lowers (done_at around.entry ((pattern_lowered pattern.now).bound role value) state.old) result state.new }
{
    if around.room == 0 {
        return Err(AllocError);
    }
    let here = Here {
        around: around.inner(),
        expression: &walk_expression,
        pattern: &walk_pattern,
        statement: &walk_statement,
        function: &walk_function,
    };
    lower_bound(&here, pattern, role, value, state)
}

/// What a statement becomes (13).
#[cycle(walk)]
pub fn walk_statement(
    around: Around,
    statement: &Statement,
    state: &mut Lowerer,
) -> Result<Items<CoreStat>, AllocError>
    ensures { Lowers (done_at around.entry (statement_lowered statement.now).listed.statements state.old) result state.new }
{
    if around.room == 0 {
        return Err(AllocError);
    }
    let here = Here {
        around: around.inner(),
        expression: &walk_expression,
        pattern: &walk_pattern,
        statement: &walk_statement,
        function: &walk_function,
    };
    lower_statement(&here, statement, state)
}

/// The number of a function that is no arrow, which goes into the table (14.1, 14.3, 14.4).
#[cycle(walk)]
pub fn walk_function(
    around: Around,
    function: &Function,
    form: FunctionForm,
    state: &mut Lowerer,
) -> Result<FunctionId, AllocError>
    ensures { Lowers (done_at around.entry ((function_lowered function.now).lowered form) state.old) result state.new }
{
    if around.room == 0 {
        return Err(AllocError);
    }
    let here = Here {
        around: around.inner(),
        expression: &walk_expression,
        pattern: &walk_pattern,
        statement: &walk_statement,
        function: &walk_function,
    };
    lower_function(&here, function, form, state)
}
