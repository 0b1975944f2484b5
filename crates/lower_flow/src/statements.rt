//! Statements by their kinds (ECMA-262, 6th edition, 13).

ghost use Rattle.lower_flow.specs.Kinds.{branched, left, looped};
ghost use Rattle.lower_walk.specs.Handed.{done_at, HasExpressions, HasFunctions, HasPatterns, HasStatements};
ghost use Rattle.module_lowering.specs.declared.context.JumpForm.TheVariants.{Turns};
ghost use Rattle.module_lowering.specs.Lowered.{statement_lowered};
ghost use Rattle.module_lowering.specs.Lowering.{Lowers};
ghost use Rattle.module_lowering.specs.Statements.{with_target};

use crate::declarations::role_of;
use crate::flow::{Flow, placed};
use crate::jumps::jumping;
use core_ast::{CoreExpr, CoreStat, FunctionId};
use es6_ast::{Expression, Function, Pattern, Statement};
use lower_walk::{Around, Here, targeting};
use lowering_rules::reference_rules::Reached;
use module_lowering::{FunctionForm, JumpForm, Lowerer, Role};
use sqlite_items::Items;
use std::alloc::AllocError;

impl<
    E: Fn(Around, &Expression, &mut Lowerer) -> Result<Reached, AllocError>,
    P: Fn(Around, &Pattern, Role, CoreExpr, &mut Lowerer) -> Result<Items<CoreStat>, AllocError>,
    S: Fn(Around, &Statement, &mut Lowerer) -> Result<Items<CoreStat>, AllocError>,
    F: Fn(Around, &Function, FunctionForm, &mut Lowerer) -> Result<FunctionId, AllocError>,
> Flow<'_, E, P, S, F> {
    /// A loop, without the place that jumps in it go to. Nothing is made of another statement.
    fn looped(
        &self,
        statement: &Statement,
        state: &mut Lowerer,
    ) -> Result<Items<CoreStat>, AllocError>
        requires expressions { HasExpressions E.pre E.post self.now.here }
        requires patterns { HasPatterns P.pre P.post self.now.here }
        requires statements { HasStatements S.pre S.post self.now.here }
        ensures { Lowers (done_at self.now.here.around (looped statement.now) state.old) result state.new }
    {
        match statement {
            Statement::DoWhile { span, body, test } => {
                self.do_while(span.begin, body.get(), test, state)
            }
            Statement::While { span, test, body } => {
                self.while_loop(span.begin, test, body.get(), state)
            }
            Statement::For {
                span,
                first,
                test,
                update,
                body,
            } => self.for_loop(span.begin, first.get(), test, update, body.get(), state),
            Statement::ForOf {
                span,
                target,
                subject,
                body,
            } => self.for_of(span.begin, target.get(), subject, body.get(), state),
            _ => Ok(Items::new(self.here.around.alloc)),
        }
    }

    /// A loop that begins at a place: jumps in it may go to it.
    fn loop_at(
        &self,
        at: u32,
        tests_last: bool,
        statement: &Statement,
        state: &mut Lowerer,
    ) -> Result<Items<CoreStat>, AllocError>
        requires expressions { HasExpressions E.pre E.post self.now.here }
        requires patterns { HasPatterns P.pre P.post self.now.here }
        requires statements { HasStatements S.pre S.post self.now.here }
        ensures { Lowers (done_at self.now.here.around (with_target at (Turns tests_last) (looped statement.now)) state.old) result state.new }
    {
        let around = self.here.around;
        let form = JumpForm::Turns { tests_last };
        let context = targeting(around.alloc, None, at, form, around.context)?;
        let inner = placed(&self.here, &context);
        inner.looped(statement, state)
    }

    /// What chooses between statements. Nothing is made of another statement.
    fn branched(
        &self,
        statement: &Statement,
        state: &mut Lowerer,
    ) -> Result<Items<CoreStat>, AllocError>
        requires expressions { HasExpressions E.pre E.post self.now.here }
        requires patterns { HasPatterns P.pre P.post self.now.here }
        requires statements { HasStatements S.pre S.post self.now.here }
        requires functions { HasFunctions F.pre F.post self.now.here }
        ensures { Lowers (done_at self.now.here.around (branched statement.now) state.old) result state.new }
    {
        match statement {
            Statement::If {
                first,
                more,
                otherwise,
                ..
            } => self.if_statement(first, more.as_slice(), otherwise, state),
            Statement::Switch {
                span,
                subject,
                cases,
            } => self.switch(span.begin, subject, cases.as_slice(), state),
            Statement::Try {
                block,
                catch,
                finally,
                ..
            } => self.try_statement(block, catch, finally, state),
            _ => Ok(Items::new(self.here.around.alloc)),
        }
    }

    /// What leaves a statement. Nothing is made of another statement.
    fn left(
        &self,
        statement: &Statement,
        state: &mut Lowerer,
    ) -> Result<Items<CoreStat>, AllocError>
        requires expressions { HasExpressions E.pre E.post self.now.here }
        ensures { Lowers (done_at self.now.here.around (left statement.now) state.old) result state.new }
    {
        match statement {
            Statement::Continue { label, .. } => jumping(self.here.around, true, label),
            Statement::Break { label, .. } => jumping(self.here.around, false, label),
            Statement::Return { value, .. } => self.returning(value, state),
            Statement::Throw { value, .. } => self.throw(value, state),
            _ => Ok(Items::new(self.here.around.alloc)),
        }
    }

    #[tactic(auto, unfolding(module_lowering::specs::Lowered::statement_lowered, module_lowering::specs::Lowered::expression_lowered, module_lowering::specs::Lowered::block_lowered, module_lowering::specs::Lowered::part_lowered, module_lowering::specs::Lowered::condition_lowered, module_lowering::specs::Lowered::case_lowered, module_lowering::specs::Lowered::catch_lowered, module_lowering::specs::Lowered::class_lowered, module_lowering::specs::Lowered::for_first_lowered, module_lowering::specs::Lowered::for_target_lowered))]
    fn statement(
        &self,
        statement: &Statement,
        state: &mut Lowerer,
    ) -> Result<Items<CoreStat>, AllocError>
        requires expressions { HasExpressions E.pre E.post self.now.here }
        requires patterns { HasPatterns P.pre P.post self.now.here }
        requires statements { HasStatements S.pre S.post self.now.here }
        requires functions { HasFunctions F.pre F.post self.now.here }
        ensures { Lowers (done_at self.now.here.around (statement_lowered statement.now).listed.statements state.old) result state.new }
    {
        match statement {
            Statement::Block(block) => self.block(block, state),
            Statement::Variables { kind, parts, .. } => {
                self.declarators(role_of(*kind), parts.as_slice(), state)
            }
            Statement::Expression { expression, .. } => {
                self.expression_statement(expression, state)
            }
            Statement::If { .. } | Statement::Switch { .. } | Statement::Try { .. } => {
                self.branched(statement, state)
            }
            Statement::DoWhile { span, .. } => self.loop_at(span.begin, true, statement, state),
            Statement::While { span, .. }
            | Statement::For { span, .. }
            | Statement::ForOf { span, .. } => self.loop_at(span.begin, false, statement, state),
            Statement::Continue { .. }
            | Statement::Break { .. }
            | Statement::Return { .. }
            | Statement::Throw { .. } => self.left(statement, state),
            Statement::Labelled { span, label, body } => {
                self.labelled_statement(span.begin, label, body.get(), state)
            }
            Statement::ClassDeclaration(class) => self.class_declaration(class.get(), state),
            Statement::Empty { .. }
            | Statement::Debugger { .. }
            | Statement::FunctionDeclaration(_) => Ok(Items::new(self.here.around.alloc)),
        }
    }
}

/// What a statement becomes.
pub fn lower_statement<
    E: Fn(Around, &Expression, &mut Lowerer) -> Result<Reached, AllocError>,
    P: Fn(Around, &Pattern, Role, CoreExpr, &mut Lowerer) -> Result<Items<CoreStat>, AllocError>,
    S: Fn(Around, &Statement, &mut Lowerer) -> Result<Items<CoreStat>, AllocError>,
    F: Fn(Around, &Function, FunctionForm, &mut Lowerer) -> Result<FunctionId, AllocError>,
>(
    here: &Here<'_, E, P, S, F>,
    statement: &Statement,
    state: &mut Lowerer,
) -> Result<Items<CoreStat>, AllocError>
    requires expressions { HasExpressions E.pre E.post here.now }
    requires patterns { HasPatterns P.pre P.post here.now }
    requires statements { HasStatements S.pre S.post here.now }
    requires functions { HasFunctions F.pre F.post here.now }
    ensures { Lowers (done_at here.now.around (statement_lowered statement.now).listed.statements state.old) result state.new }
{
    Flow { here: *here }.statement(statement, state)
}
