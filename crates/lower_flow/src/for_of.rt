//! for-of (ECMA-262, 6th edition, 13.7.5).

ghost use Rattle.lower_flow.specs.Loops.{begun_with, for_of_made, turn_of};
ghost use Rattle.lower_flow.specs.Nodes.{for_of_node, walk_node};
ghost use Rattle.lower_walk.specs.Handed.{done_at, HasExpressions, HasPatterns, HasStatements};
ghost use Rattle.module_lowering.specs.Expressions.{valued};
ghost use Rattle.module_lowering.specs.Lowered.{expression_lowered, for_target_lowered, statement_lowered};
ghost use Rattle.module_lowering.specs.Lowering.{each_by, Lowers, within};
ghost use Rattle.module_lowering.specs.Names.{scoped_names};
ghost use Rattle.module_lowering.specs.Statements.{dead_name, in_subject, stand_ins, standing_in};
ghost use Rattle.std.specs.Prelude.{◌≡◌, map, IfOk};

use crate::declarations::{lexicals_of, role_of};
use crate::flow::{Flow, placed};
use core_ast::{CoreExpr, CoreStat, ScopedName, Var, variable};
use es6_ast::{Expression, ForTarget, Pattern, Statement};
use lower_listed::pattern_names;
use lower_patterns::lower_for_of;
use lower_statements::exit_label;
use lower_walk::{Around, in_subject};
use lowering_rules::reference_rules::Reached;
use lowering_rules::{ForOf, Iteration};
use module_lowering::{Dead, Lowerer, Role};
use sqlite_items::Items;
use std::alloc::{AllocError, Global};

/// The subject of a for-of, and the names of the head as they are while it is evaluated.
#[derive(Drop)]
pub struct Subject {
    pub dead: Items<ScopedName>,
    pub value: CoreExpr,
}

/// The places of the lexical names of a head.
#[tactic(auto, unfolding(module_lowering::specs::Lowered::for_target_lowered, module_lowering::specs::Lowered::pattern_lowered))]
fn lexicals(alloc: Global, target: &ForTarget) -> Result<Items<u32>, AllocError>
    ensures { IfOk result (λ ps. ps ≡ (for_target_lowered target.now).lexicals) }
{
    match target {
        ForTarget::Declared { kind, pattern, .. } => {
            let names = pattern_names(alloc, pattern)?;
            lexicals_of(alloc, *kind, names.as_slice())
        }
        ForTarget::Assigned(_) => Ok(Items::new(alloc)),
    }
}

/// The scope of a head.
fn names(around: Around, target: &ForTarget) -> Result<Items<ScopedName>, AllocError>
    ensures { IfOk result (λ ns. ns ≡ scoped_names (for_target_lowered target.now).lexicals around.entry.bindings.now around.entry.context.now) }
{
    let places = lexicals(around.alloc, target)?;
    around
        .bindings
        .scoped_names(around.alloc, around.context, places.as_slice())
}

/// Other variables stand for the names of a head.
fn stand_ins(
    alloc: Global,
    names: &[ScopedName],
    dead: &[Dead],
) -> Result<Items<ScopedName>, AllocError>
    ensures { IfOk result (λ ns. ns ≡ stand_ins names.now dead.now) }
{
    let mut made = Items::new(alloc);
    let mut rest = dead;
    for name in names {
        let Some((first, others)) = rest.split_first() else {
            return Ok(made);
        };
        made.push(standing_in(*name, first.stand_in))?;
        rest = others;
    }
    Ok(made)
}

fn standing_in(name: ScopedName, var: Var) -> ScopedName
    ensures { result ≡ standing_in name var }
{
    ScopedName { var, ..name }
}

/// A for-of of these parts that begins at a place.
fn built(
    alloc: Global,
    at: u32,
    iteration: Iteration,
    names: Items<ScopedName>,
    subject: Subject,
    turn: Items<CoreStat>,
) -> Result<Items<CoreStat>, AllocError>
    ensures { IfOk result (λ ss. ss ≡ for_of_made at iteration names subject turn) }
{
    let Subject { dead, value } = subject;
    let mut labels = Items::new(alloc);
    labels.push(exit_label(at)?)?;
    lower_for_of(
        alloc,
        iteration,
        ForOf {
            dead,
            subject: value,
            labels,
            names,
            turn,
        },
    )
}

impl<
    E: Fn(Around, &Expression, &mut Lowerer) -> Result<Reached, AllocError>,
    P: Fn(Around, &Pattern, Role, CoreExpr, &mut Lowerer) -> Result<Items<CoreStat>, AllocError>,
    S: Fn(Around, &Statement, &mut Lowerer) -> Result<Items<CoreStat>, AllocError>,
    F,
> Flow<'_, E, P, S, F> {
    /// The head takes the value of a variable.
    #[tactic(auto, unfolding(module_lowering::specs::Lowered::for_target_lowered, module_lowering::specs::Lowered::pattern_lowered))]
    fn target_bound(
        &self,
        target: &ForTarget,
        var: Var,
        state: &mut Lowerer,
    ) -> Result<Items<CoreStat>, AllocError>
        requires patterns { HasPatterns P.pre P.post self.now.here }
        ensures { Lowers (done_at self.now.here.around ((for_target_lowered target.now).bound var) state.old) result state.new }
    {
        let value = variable(self.here.around.alloc, var);
        match target {
            ForTarget::Declared { kind, pattern, .. } => {
                self.here.bound(pattern, role_of(*kind), value, state)
            }
            ForTarget::Assigned(pattern) => self.here.bound(pattern, Role::Assigns, value, state),
        }
    }

    fn dead_name(&self, name: &ScopedName, state: &mut Lowerer) -> Result<Dead, AllocError>
        ensures { Lowers (done_at self.now.here.around (dead_name name.now) state.old) result state.new }
    {
        let stand_in = self.here.raw(state)?;
        Ok(Dead {
            name: name.var,
            stand_in,
        })
    }

    /// In the subject other variables stand for the names of the head, which have no value there (13.7.5.12).
    fn dead_names(
        &self,
        names: &[ScopedName],
        state: &mut Lowerer,
    ) -> Result<Items<Dead>, AllocError>
        ensures { Lowers (done_at self.now.here.around (each_by dead_name names.now) state.old) result state.new }
    {
        let mut dead = Items::new(self.here.around.alloc);
        for name in names {
            dead.push(self.dead_name(name, state)?)?;
        }
        Ok(dead)
    }

    fn subject_value(
        &self,
        dead: &[Dead],
        subject: &Expression,
        state: &mut Lowerer,
    ) -> Result<CoreExpr, AllocError>
        requires expressions { HasExpressions E.pre E.post self.now.here }
        ensures { Lowers (done_at self.now.here.around (within (in_subject dead.now) (valued (expression_lowered subject.now))) state.old) result state.new }
    {
        let around = self.here.around;
        let context = in_subject(around.alloc, dead, around.context)?;
        let inner = placed(&self.here, &context);
        inner.here.value(subject, state)
    }

    fn subject(
        &self,
        names: &[ScopedName],
        subject: &Expression,
        state: &mut Lowerer,
    ) -> Result<Subject, AllocError>
        requires expressions { HasExpressions E.pre E.post self.now.here }
        ensures { Lowers (done_at self.now.here.around (begun_with names.now (expression_lowered subject.now)) state.old) result state.new }
    {
        let dead = self.dead_names(names, state)?;
        let value = self.subject_value(dead.as_slice(), subject, state)?;
        let dead = stand_ins(self.here.around.alloc, names, dead.as_slice())?;
        Ok(Subject { dead, value })
    }

    fn turn(
        &self,
        target: &ForTarget,
        body: &Statement,
        var: Var,
        state: &mut Lowerer,
    ) -> Result<Items<CoreStat>, AllocError>
        requires patterns { HasPatterns P.pre P.post self.now.here }
        requires statements { HasStatements S.pre S.post self.now.here }
        ensures { Lowers (done_at self.now.here.around (turn_of (for_target_lowered target.now) (statement_lowered body.now) var) state.old) result state.new }
    {
        let mut turn = self.target_bound(target, var, state)?;
        turn.append(self.here.under(body, state)?)?;
        Ok(turn)
    }

    fn for_of_with(
        &self,
        at: u32,
        iteration: Iteration,
        target: &ForTarget,
        subject: &Expression,
        body: &Statement,
        state: &mut Lowerer,
    ) -> Result<Items<CoreStat>, AllocError>
        requires expressions { HasExpressions E.pre E.post self.now.here }
        requires patterns { HasPatterns P.pre P.post self.now.here }
        requires statements { HasStatements S.pre S.post self.now.here }
        ensures { Lowers (done_at self.now.here.around (walk_node at iteration target.now subject.now body.now) state.old) result state.new }
    {
        let names = names(self.here.around, target)?;
        let subject = self.subject(names.as_slice(), subject, state)?;
        let turn = self.turn(target, body, iteration.value, state)?;
        built(self.here.around.alloc, at, iteration, names, subject, turn)
    }

    /// A for-of that begins at a place.
    pub(crate) fn for_of(
        &self,
        at: u32,
        target: &ForTarget,
        subject: &Expression,
        body: &Statement,
        state: &mut Lowerer,
    ) -> Result<Items<CoreStat>, AllocError>
        requires expressions { HasExpressions E.pre E.post self.now.here }
        requires patterns { HasPatterns P.pre P.post self.now.here }
        requires statements { HasStatements S.pre S.post self.now.here }
        ensures { Lowers (done_at self.now.here.around (for_of_node at target.now subject.now body.now) state.old) result state.new }
    {
        let iteration = self.here.iteration(state)?;
        self.for_of_with(at, iteration, target, subject, body, state)
    }
}
