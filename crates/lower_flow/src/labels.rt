//! Labelled statements (ECMA-262, 6th edition, 13.13).

ghost use Rattle.lower_flow.specs.Nodes.{target_node};
ghost use Rattle.lower_walk.specs.Handed.{done_at, HasStatements};
ghost use Rattle.module_lowering.specs.declared.context.JumpForm.TheVariants.{Stays, Turns};
ghost use Rattle.module_lowering.specs.Lowered.{statement_lowered};
ghost use Rattle.module_lowering.specs.Lowering.{Lowers};
ghost use Rattle.module_lowering.specs.Statements.{labelled_at, with_label};
ghost use Rattle.lowering_rules.specs.statement_rules.Statements.{exit_label, labelled};
ghost use Rattle.std.specs.Prelude.{◌≡◌, ◌∷◌, [], IfOk};

use crate::flow::{Flow, placed};
use core_ast::CoreStat;
use es6_ast::{Identifier, Statement};
use lower_parts::alone;
use lower_statements::{exit_label, labelled};
use lower_walk::{Around, targeting};
use module_lowering::{JumpForm, Lowerer};
use sqlite_items::Items;
use std::alloc::{AllocError, Global};
use std::marker::Model;

/// What a jump to a statement goes to.
#[derive(Drop)]
pub struct Exit {
    pub at: u32,
    pub form: JumpForm,
}

impl Model for Exit {
    ghost use Rattle.module_lowering.specs.Nodes.{Exited};

    ghost Value = { Exited };

    ghost view = { λ e. record { at = e.at; form = e.form } };
}

/// Of a loop.
fn turns(at: u32, tests_last: bool) -> Exit
    ensures { result ≡ record { at = at; form = Turns tests_last } }
{
    let form = JumpForm::Turns { tests_last };
    Exit { at, form }
}

/// Of another statement with a label.
fn stays(at: u32) -> Exit
    ensures { result ≡ record { at = at; form = Stays } }
{
    let form = JumpForm::Stays;
    Exit { at, form }
}

/// Where a label before a statement is a loop's or another label's, what jumps to the statement go to.
#[tactic(auto, unfolding(module_lowering::specs::Lowered::statement_lowered))]
fn exit_of(statement: &Statement) -> Option<Exit>
    ensures { result ≡ (statement_lowered statement.now).exit }
{
    match statement {
        Statement::DoWhile { span, .. } => Some(turns(span.begin, true)),
        Statement::While { span, .. }
        | Statement::For { span, .. }
        | Statement::ForOf { span, .. } => Some(turns(span.begin, false)),
        Statement::Labelled { span, body, .. } => match exit_of(body.get()) {
            Some(exit) => Some(exit),
            None => Some(stays(span.begin)),
        },
        _ => None,
    }
}

fn labelled_alone(
    alloc: Global,
    at: u32,
    body: Items<CoreStat>,
) -> Result<Items<CoreStat>, AllocError>
    ensures { IfOk result (λ ss. ss ≡ labelled (exit_label at) body ∷ []) }
{
    let label = exit_label(at)?;
    alone(alloc, labelled(label, body))
}

impl<E, P, S: Fn(Around, &Statement, &mut Lowerer) -> Result<Items<CoreStat>, AllocError>, F> Flow<
    '_,
    E,
    P,
    S,
    F,
> {
    /// A statement whose label a jump may name.
    fn targeted(
        &self,
        label: &Identifier,
        exit: Exit,
        body: &Statement,
        state: &mut Lowerer,
    ) -> Result<Items<CoreStat>, AllocError>
        requires statements { HasStatements S.pre S.post self.now.here }
        ensures { Lowers (done_at self.now.here.around (target_node label.now.name exit body.now) state.old) result state.new }
    {
        let around = self.here.around;
        let name = label.name.copy(around.alloc)?;
        let context = targeting(around.alloc, Some(name), exit.at, exit.form, around.context)?;
        let inner = placed(&self.here, &context);
        inner.here.under(body, state)
    }

    /// A statement that is no loop, behind its label.
    fn labelled_at(
        &self,
        at: u32,
        label: &Identifier,
        body: &Statement,
        state: &mut Lowerer,
    ) -> Result<Items<CoreStat>, AllocError>
        requires statements { HasStatements S.pre S.post self.now.here }
        ensures { Lowers (done_at self.now.here.around (labelled_at at (target_node label.now.name (record { at = at; form = Stays }) body.now)) state.old) result state.new }
    {
        let body = self.targeted(label, stays(at), body, state)?;
        labelled_alone(self.here.around.alloc, at, body)
    }

    /// A label before a loop, or before further labels of one, is the loop's, and before another statement it is of that.
    pub(crate) fn labelled_statement(
        &self,
        at: u32,
        label: &Identifier,
        body: &Statement,
        state: &mut Lowerer,
    ) -> Result<Items<CoreStat>, AllocError>
        requires statements { HasStatements S.pre S.post self.now.here }
        ensures { Lowers (done_at self.now.here.around (with_label at label.now.name (statement_lowered body.now).listed (statement_lowered body.now).exit).listed.statements state.old) result state.new }
    {
        match exit_of(body) {
            Some(exit) => self.targeted(label, exit, body, state),
            None => self.labelled_at(at, label, body, state),
        }
    }
}
