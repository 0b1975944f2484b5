//! `continue`, `break`, `return`, `throw`, and statements that are expressions (ECMA-262, 6th edition, 13.5, 13.8 to 13.10 and 13.14).

ghost use Rattle.core_ast.specs.declared.tree.CoreStat.TheVariants as stat;
ghost use Rattle.lower_flow.specs.Jumps.{leaves_body};
ghost use Rattle.lower_walk.specs.Handed.{done_at, HasExpressions};
ghost use Rattle.module_lowering.specs.Expressions.{valued};
ghost use Rattle.module_lowering.specs.Lowered.{expression_lowered};
ghost use Rattle.module_lowering.specs.Lowering.{Lowers};
ghost use Rattle.module_lowering.specs.Statements.{has_label, is_target, jump_to, jumps, one_of, returning, takes_jump};
ghost use Rattle.std.specs.Option.{option_map};
ghost use Rattle.std.specs.Prelude.{◌≡◌, IfOk};

use crate::flow::Flow;
use core_ast::CoreStat;
use es6_ast::{Expression, Identifier};
use lower_parts::alone;
use lower_statements::{body_label, exit_label, jump, lower_return};
use lower_walk::Around;
use lowering_rules::reference_rules::Reached;
use module_lowering::{JumpForm, JumpTarget, Lowerer};
use shared_text::Name;
use sqlite_items::Items;
use std::alloc::{AllocError, Global};

/// Whether a jump without a label, to the next turn or out, goes to such a statement.
fn takes_jump(goes_on: bool, form: JumpForm) -> bool
    ensures { result ≡ takes_jump goes_on form }
{
    match form {
        JumpForm::Turns { .. } => true,
        JumpForm::Cases => !goes_on,
        JumpForm::Stays => false,
    }
}

fn has_label(name: &Name, label: &Option<Name>) -> bool
    ensures { result ≡ has_label name.now label.now }
{
    match label {
        None => false,
        Some(label) => label.bytes() == name.bytes(),
    }
}

fn is_target(goes_on: bool, label: &Option<Identifier>, target: &JumpTarget) -> bool
    ensures { result ≡ is_target goes_on (option_map (λ x. x.name) label.now) target.now }
{
    match label {
        None => takes_jump(goes_on, target.form),
        Some(label) => has_label(&label.name, &target.label),
    }
}

/// A continue of a loop that has its test behind the body leaves the body alone.
fn leaves_body(goes_on: bool, form: JumpForm) -> bool
    ensures { result ≡ leaves_body goes_on form }
{
    match form {
        JumpForm::Turns { tests_last } => goes_on & tests_last,
        JumpForm::Cases | JumpForm::Stays => false,
    }
}

#[tactic(auto, using(crate::proofs::JumpLaws::body_left, crate::proofs::JumpLaws::body_not_left))]
fn jump_to(goes_on: bool, at: u32, form: JumpForm) -> Result<CoreStat, AllocError>
    ensures { IfOk result (λ s. s ≡ jump_to goes_on at form) }
{
    if leaves_body(goes_on, form) {
        return Ok(jump(false, body_label(at)?));
    }
    Ok(jump(goes_on, exit_label(at)?))
}

/// To the innermost of these statements that the jump may go to.
fn jumps(
    alloc: Global,
    goes_on: bool,
    label: &Option<Identifier>,
    targets: &[JumpTarget],
) -> Result<Items<CoreStat>, AllocError>
    ensures { IfOk result (λ ss. ss ≡ jumps goes_on (option_map (λ x. x.name) label.now) targets.now) }
{
    for target in targets {
        if is_target(goes_on, label, target) {
            return alone(alloc, jump_to(goes_on, target.at, target.form)?);
        }
    }
    Ok(Items::new(alloc))
}

/// A `continue` or a `break`.
pub(crate) fn jumping(
    around: Around,
    goes_on: bool,
    label: &Option<Identifier>,
) -> Result<Items<CoreStat>, AllocError>
    ensures { IfOk result (λ ss. ss ≡ jumps goes_on (option_map (λ x. x.name) label.now) around.entry.context.now.targets) }
{
    jumps(
        around.alloc,
        goes_on,
        label,
        around.context.targets.as_slice(),
    )
}

impl<E: Fn(Around, &Expression, &mut Lowerer) -> Result<Reached, AllocError>, P, S, F> Flow<
    '_,
    E,
    P,
    S,
    F,
> {
    /// An expression that is a statement.
    pub(crate) fn expression_statement(
        &self,
        expression: &Expression,
        state: &mut Lowerer,
    ) -> Result<Items<CoreStat>, AllocError>
        requires expressions { HasExpressions E.pre E.post self.now.here }
        ensures { Lowers (done_at self.now.here.around (one_of stat.Do (valued (expression_lowered expression.now))) state.old) result state.new }
    {
        let value = self.here.value(expression, state)?;
        alone(self.here.around.alloc, CoreStat::Do(value))
    }

    /// A `throw`.
    pub(crate) fn throw(
        &self,
        value: &Expression,
        state: &mut Lowerer,
    ) -> Result<Items<CoreStat>, AllocError>
        requires expressions { HasExpressions E.pre E.post self.now.here }
        ensures { Lowers (done_at self.now.here.around (one_of stat.Throw (valued (expression_lowered value.now))) state.old) result state.new }
    {
        let value = self.here.value(value, state)?;
        alone(self.here.around.alloc, CoreStat::Throw(value))
    }

    /// A `return`.
    pub(crate) fn returning(
        &self,
        value: &Option<Expression>,
        state: &mut Lowerer,
    ) -> Result<Items<CoreStat>, AllocError>
        requires expressions { HasExpressions E.pre E.post self.now.here }
        ensures { Lowers (done_at self.now.here.around (returning (option_map expression_lowered value.now)) state.old) result state.new }
    {
        let alloc = self.here.around.alloc;
        let value = self.here.default(value, state)?;
        alone(alloc, lower_return(alloc, value))
    }
}
