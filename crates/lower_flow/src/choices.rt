//! `switch` (ECMA-262, 6th edition, 13.12).

ghost use Rattle.es6_static_semantics.specs.Findings.{joined};
ghost use Rattle.lower_flow.specs.Nodes.{cases_scope, switch_node};
ghost use Rattle.lower_flow.specs.Scopes.{switch_made, switch_with};
ghost use Rattle.lower_listed.specs.Hoisted.{hoisted_of};
ghost use Rattle.lower_walk.specs.Handed.{done_at, HasExpressions, HasFunctions, HasStatements};
ghost use Rattle.module_lowering.specs.declared.context.JumpForm.TheVariants.{Cases};
ghost use Rattle.module_lowering.specs.Lowered.{case_lowered as case_listed};
ghost use Rattle.module_lowering.specs.Lowering.{each_by, Lowers};
ghost use Rattle.module_lowering.specs.Statements.{case_lowered, with_target};
ghost use Rattle.std.specs.Prelude.{◌≡◌, map, IfOk};

use crate::blocks::Scope;
use crate::flow::{Flow, placed};
use core_ast::{CoreCase, CoreExpr, CoreStat, FunctionId, Var};
use es6_ast::{Case, Expression, Function, Statement};
use lower_listed::{HoistedAt, statements_functions, statements_lexicals};
use lower_statements::{exit_label, lower_switch};
use lower_walk::{Around, targeting};
use lowering_rules::reference_rules::Reached;
use lowering_rules::statement_rules::SwitchParts;
use module_lowering::{FunctionForm, JumpForm, Lowerer};
use sqlite_items::Items;
use std::alloc::{AllocError, Global};

/// The places of the lexical names of a clause.
#[tactic(auto, using(lower_walk::proofs::Layers::case_body_out))]
fn case_lexicals(alloc: Global, case: &Case) -> Result<Items<u32>, AllocError>
    ensures { IfOk result (λ ps. ps ≡ (case_listed case.now).body.lexicals) }
{
    statements_lexicals(alloc, case.body.as_slice())
}

/// Those of all clauses.
fn cases_lexicals(alloc: Global, cases: &[Case]) -> Result<Items<u32>, AllocError>
    ensures { IfOk result (λ ps. ps ≡ joined (λ c. c.body.lexicals) (map case_listed cases.now)) }
{
    let mut places = Items::new(alloc);
    for case in cases {
        places.append(case_lexicals(alloc, case)?)?;
    }
    Ok(places)
}

/// The functions of a clause.
#[tactic(auto, using(lower_walk::proofs::Layers::case_body_out))]
fn case_functions<'a>(alloc: Global, case: &'a Case) -> Result<Items<HoistedAt<'a>>, AllocError>
    ensures { IfOk result (λ hs. map hoisted_of hs ≡ (case_listed case.now).body.functions) }
{
    statements_functions(alloc, case.body.as_slice())
}

/// Those of all clauses.
fn cases_functions<'a>(alloc: Global, cases: &'a [Case]) -> Result<Items<HoistedAt<'a>>, AllocError>
    ensures { IfOk result (λ hs. map hoisted_of hs ≡ joined (λ c. c.body.functions) (map case_listed cases.now)) }
{
    let mut functions = Items::new(alloc);
    for case in cases {
        functions.append(case_functions(alloc, case)?)?;
    }
    Ok(functions)
}

/// A switch whose subject is kept in a variable.
fn built(
    alloc: Global,
    at: u32,
    kept: Var,
    subject: CoreExpr,
    scope: Scope,
    cases: Items<CoreCase>,
) -> Result<Items<CoreStat>, AllocError>
    ensures { IfOk result (λ ss. ss ≡ switch_made at kept subject scope cases) }
{
    let Scope { names, functions } = scope;
    let label = exit_label(at)?;
    lower_switch(
        alloc,
        SwitchParts {
            label,
            kept,
            subject,
            names,
            functions,
            cases,
        },
    )
}

impl<
    E: Fn(Around, &Expression, &mut Lowerer) -> Result<Reached, AllocError>,
    P,
    S: Fn(Around, &Statement, &mut Lowerer) -> Result<Items<CoreStat>, AllocError>,
    F: Fn(Around, &Function, FunctionForm, &mut Lowerer) -> Result<FunctionId, AllocError>,
> Flow<'_, E, P, S, F> {
    /// The clauses are one scope (13.12.11).
    fn cases_scope(&self, cases: &[Case], state: &mut Lowerer) -> Result<Scope, AllocError>
        requires functions { HasFunctions F.pre F.post self.now.here }
        ensures { Lowers (done_at self.now.here.around (cases_scope cases.now) state.old) result state.new }
    {
        let alloc = self.here.around.alloc;
        let lexicals = cases_lexicals(alloc, cases)?;
        let functions = cases_functions(alloc, cases)?;
        self.scope(lexicals.as_slice(), functions.as_slice(), state)
    }

    #[tactic(auto, using(lower_walk::proofs::Layers::case_test_out, lower_walk::proofs::Layers::case_body_out))]
    fn case(&self, case: &Case, state: &mut Lowerer) -> Result<CoreCase, AllocError>
        requires expressions { HasExpressions E.pre E.post self.now.here }
        requires statements { HasStatements S.pre S.post self.now.here }
        ensures { Lowers (done_at self.now.here.around (case_lowered (case_listed case.now)) state.old) result state.new }
    {
        let test = self.here.default(&case.test, state)?;
        let body = self.here.statements(case.body.as_slice(), state)?;
        Ok(CoreCase { test, body })
    }

    fn cases(&self, cases: &[Case], state: &mut Lowerer) -> Result<Items<CoreCase>, AllocError>
        requires expressions { HasExpressions E.pre E.post self.now.here }
        requires statements { HasStatements S.pre S.post self.now.here }
        ensures { Lowers (done_at self.now.here.around (each_by case_lowered (map case_listed cases.now)) state.old) result state.new }
    {
        let mut made = Items::new(self.here.around.alloc);
        for case in cases {
            made.push(self.case(case, state)?)?;
        }
        Ok(made)
    }

    /// The clauses of the switch that begins at a place: a `break` in them leaves it.
    fn cases_of(
        &self,
        at: u32,
        cases: &[Case],
        state: &mut Lowerer,
    ) -> Result<Items<CoreCase>, AllocError>
        requires expressions { HasExpressions E.pre E.post self.now.here }
        requires statements { HasStatements S.pre S.post self.now.here }
        ensures { Lowers (done_at self.now.here.around (with_target at Cases (each_by case_lowered (map case_listed cases.now))) state.old) result state.new }
    {
        let around = self.here.around;
        let context = targeting(around.alloc, None, at, JumpForm::Cases, around.context)?;
        let inner = placed(&self.here, &context);
        inner.cases(cases, state)
    }

    fn switch_with(
        &self,
        at: u32,
        kept: Var,
        subject: CoreExpr,
        cases: &[Case],
        state: &mut Lowerer,
    ) -> Result<Items<CoreStat>, AllocError>
        requires expressions { HasExpressions E.pre E.post self.now.here }
        requires statements { HasStatements S.pre S.post self.now.here }
        requires functions { HasFunctions F.pre F.post self.now.here }
        ensures { Lowers (done_at self.now.here.around (switch_with at kept subject (map case_listed cases.now)) state.old) result state.new }
    {
        let scope = self.cases_scope(cases, state)?;
        let cases = self.cases_of(at, cases, state)?;
        built(self.here.around.alloc, at, kept, subject, scope, cases)
    }

    /// A switch: its subject is evaluated outside the scope of its clauses.
    pub(crate) fn switch(
        &self,
        at: u32,
        subject: &Expression,
        cases: &[Case],
        state: &mut Lowerer,
    ) -> Result<Items<CoreStat>, AllocError>
        requires expressions { HasExpressions E.pre E.post self.now.here }
        requires statements { HasStatements S.pre S.post self.now.here }
        requires functions { HasFunctions F.pre F.post self.now.here }
        ensures { Lowers (done_at self.now.here.around (switch_node at subject.now cases.now) state.old) result state.new }
    {
        let kept = self.here.temporary(state)?;
        let subject = self.here.value(subject, state)?;
        self.switch_with(at, kept, subject, cases, state)
    }
}
