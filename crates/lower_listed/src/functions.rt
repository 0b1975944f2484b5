//! The functions that statements declare (ECMA-262, 6th edition, 13.2.6 and 14.1).

ghost use Rattle.std.specs.Prelude.{◌≡◌, ◌++◌, map, OnOk};
ghost use Rattle.lower_listed.specs.Hoisted.{hoisted_of};
ghost use Rattle.module_lowering.specs.Lowered.{function_lowered, statement_lowered};
ghost use Rattle.module_lowering.specs.Statements.{function_declared};

use es6_ast::{Function, Statement};
use sqlite_items::Items;
use std::alloc::AllocError;

/// A function declaration: where its name stands, an offset in bytes, and the function.
#[derive(Drop)]
pub struct HoistedAt<'a> {
    pub at: u32,
    pub function: &'a Function,
}

#[tactic(auto, unfolding(module_lowering::specs::Lowered::function_lowered))]
fn push_function<'a>(
    function: &'a Function,
    out: &mut Items<HoistedAt<'a>>,
) -> Result<(), AllocError>
    ensures { OnOk result (map hoisted_of out.new ≡ map hoisted_of out.old ++ (function_declared (function_lowered function.now)).functions) }
{
    match &function.name {
        None => Ok(()),
        Some(name) => out.push(HoistedAt {
            at: name.span.begin,
            function,
        }),
    }
}

/// Adds the function that a statement declares, behind labels too.
#[tactic(auto, unfolding(module_lowering::specs::Lowered::statement_lowered, module_lowering::specs::Lowered::function_lowered), using(crate::proofs::Labels::labelled_functions))]
pub fn push_functions<'a>(
    statement: &'a Statement,
    out: &mut Items<HoistedAt<'a>>,
) -> Result<(), AllocError>
    ensures { OnOk result (map hoisted_of out.new ≡ map hoisted_of out.old ++ (statement_lowered statement.now).listed.functions) }
{
    match statement {
        Statement::FunctionDeclaration(function) => push_function(function.get(), out),
        Statement::Labelled { body, .. } => push_functions(body.get(), out),
        _ => Ok(()),
    }
}
