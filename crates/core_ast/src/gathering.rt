//! What stands in statements.

ghost use Rattle.std.specs.Prelude.{◌≡◌, [], ◌∷◌, map, IfOk, OnOk};
ghost use Rattle.core_ast.specs.Walks.{along};
ghost use Rattle.core_ast.specs.Mentions.{case_mentions, catches, expr_mentions, function_mentions, labelled, link_mentions, none, of_head, of_op, of_yield, part_mentions, scopes, stat_mentions, stats_mentions, uses};

use crate::parts::{CoreHead, CoreOp, FunctionId, Label, ScopedName, Var};
use crate::tree::{CoreCase, CoreExpr, CoreLink, CoreStat};
use crate::whole::{CoreFunction, CorePart};
use sqlite_items::Items;
use std::alloc::{AllocError, Global};

/// The names of scopes, the parameters of handlers, the names that are read or written, the functions that are held in
/// statements, and the labels of these, each in text order. What stands in the functions isn't looked at.
#[derive(Drop)]
pub struct Mentions {
    pub scoped: Items<ScopedName>,
    pub caught: Items<Var>,
    pub uses: Items<Var>,
    pub functions: Items<FunctionId>,
    pub labels: Items<Label>,
}

impl Mentions {
    /// Nothing yet.
    pub fn new(alloc: Global) -> Mentions
        ensures { result ≡ none }
    {
        Mentions {
            scoped: Items::new(alloc),
            caught: Items::new(alloc),
            uses: Items::new(alloc),
            functions: Items::new(alloc),
            labels: Items::new(alloc),
        }
    }

    /// What stands in a function.
    pub fn of_function(alloc: Global, function: &CoreFunction) -> Result<Mentions, AllocError>
        ensures { IfOk result (λ m. m ≡ function_mentions function.now) }
    {
        let mut mentions = Mentions::new(alloc);
        mentions.add(function.setup.as_slice())?;
        mentions.add(function.body.as_slice())?;
        mentions.add(function.step.as_slice())?;
        Ok(mentions)
    }

    /// What stands in a part.
    pub fn of_part(alloc: Global, part: &CorePart) -> Result<Mentions, AllocError>
        ensures { IfOk result (λ m. m ≡ part_mentions part.now) }
    {
        let mut mentions = Mentions::new(alloc);
        mentions.add(part.instantiate.as_slice())?;
        mentions.add(part.body.as_slice())?;
        Ok(mentions)
    }

    /// Adds what stands in these statements.
    pub fn add(&mut self, source: &[CoreStat]) -> Result<(), AllocError>
        ensures { OnOk result (self.new ≡ stats_mentions source.now self.old) }
    {
        stats(self, source)
    }

    fn use_name(&mut self, var: Var) -> Result<(), AllocError>
        ensures { OnOk result (self.new ≡ uses (var ∷ []) self.old) }
    {
        self.uses.push(var)
    }

    fn use_names(&mut self, vars: &[Var]) -> Result<(), AllocError>
        ensures { OnOk result (self.new ≡ uses vars.now self.old) }
    {
        for var in vars {
            self.uses.push(*var)?;
        }
        Ok(())
    }

    fn scope(&mut self, names: &[ScopedName]) -> Result<(), AllocError>
        ensures { OnOk result (self.new ≡ scopes names.now self.old) }
    {
        for name in names {
            self.scoped.push(*name)?;
        }
        Ok(())
    }

    fn label(&mut self, labels: &[Label]) -> Result<(), AllocError>
        ensures { OnOk result (self.new ≡ labelled labels.now self.old) }
    {
        for label in labels {
            self.labels.push(*label)?;
        }
        Ok(())
    }

    fn handler(&mut self, parameter: Var, names: &[ScopedName]) -> Result<(), AllocError>
        ensures { OnOk result (self.new ≡ scopes names.now (catches parameter self.old)) }
    {
        self.caught.push(parameter)?;
        self.scope(names)
    }

    #[tactic(auto, unfolding(crate::specs::Mentions::of_head))]
    fn head(&mut self, source: &CoreHead) -> Result<(), AllocError>
        ensures { OnOk result (self.new ≡ of_head source.now self.old) }
    {
        match source {
            CoreHead::Variable(var) | CoreHead::TypeOf(var) => self.use_name(*var),
            CoreHead::Copy(vars) => self.use_names(vars.as_slice()),
            CoreHead::Function(function) => self.functions.push(*function),
            _ => Ok(()),
        }
    }

    #[tactic(auto, unfolding(crate::specs::Mentions::of_op))]
    fn op(&mut self, source: &CoreOp) -> Result<(), AllocError>
        ensures { OnOk result (self.new ≡ of_op source.now self.old) }
    {
        match source {
            CoreOp::Set(var) | CoreOp::Init(var) => self.use_name(*var),
            CoreOp::StepVariable(_, var) => self.use_name(*var),
            _ => Ok(()),
        }
    }

    #[tactic(auto, unfolding(crate::specs::Mentions::of_yield))]
    fn yielded(&mut self, kind: Option<Var>, result_var: Var) -> Result<(), AllocError>
        ensures { OnOk result (self.new ≡ of_yield kind result_var self.old) }
    {
        match kind {
            Some(kind) => {
                self.uses.push(kind)?;
                self.uses.push(result_var)
            }
            None => self.uses.push(result_var),
        }
    }
}

#[cycle(mentions)]
fn expr(mentions: &mut Mentions, source: &CoreExpr) -> Result<(), AllocError>
    ensures { OnOk result (mentions.new ≡ expr_mentions source.now mentions.old) }
{
    mentions.head(&source.head)?;
    links(mentions, source.links.as_slice())
}

#[cycle(mentions)]
fn links(mentions: &mut Mentions, source: &[CoreLink]) -> Result<(), AllocError>
    ensures { OnOk result (mentions.new ≡ along (map link_mentions source.now) mentions.old) }
{
    for one in source {
        link(mentions, one)?;
    }
    Ok(())
}

#[cycle(mentions)]
fn link(mentions: &mut Mentions, source: &CoreLink) -> Result<(), AllocError>
    ensures { OnOk result (mentions.new ≡ link_mentions source.now mentions.old) }
{
    match source {
        CoreLink::Strict { op, parts, .. } => {
            exprs(mentions, parts.as_slice())?;
            mentions.op(op)
        }
        CoreLink::Lazy { yes, no, .. } => {
            expr(mentions, yes.get())?;
            match no {
                Some(no) => expr(mentions, no.get()),
                None => Ok(()),
            }
        }
        CoreLink::Run { body } => stats(mentions, body.as_slice()),
    }
}

#[cycle(mentions)]
fn exprs(mentions: &mut Mentions, source: &[CoreExpr]) -> Result<(), AllocError>
    ensures { OnOk result (mentions.new ≡ along (map expr_mentions source.now) mentions.old) }
{
    for one in source {
        expr(mentions, one)?;
    }
    Ok(())
}

#[cycle(mentions)]
fn case(mentions: &mut Mentions, source: &CoreCase) -> Result<(), AllocError>
    ensures { OnOk result (mentions.new ≡ case_mentions source.now mentions.old) }
{
    match &source.test {
        Some(test) => {
            expr(mentions, test)?;
            stats(mentions, source.body.as_slice())
        }
        None => stats(mentions, source.body.as_slice()),
    }
}

#[cycle(mentions)]
fn cases(mentions: &mut Mentions, source: &[CoreCase]) -> Result<(), AllocError>
    ensures { OnOk result (mentions.new ≡ along (map case_mentions source.now) mentions.old) }
{
    for one in source {
        case(mentions, one)?;
    }
    Ok(())
}

#[cycle(mentions)]
fn stats(mentions: &mut Mentions, source: &[CoreStat]) -> Result<(), AllocError>
    ensures { OnOk result (mentions.new ≡ stats_mentions source.now mentions.old) }
{
    for one in source {
        stat(mentions, one)?;
    }
    Ok(())
}

#[cycle(mentions)]
fn stat(mentions: &mut Mentions, source: &CoreStat) -> Result<(), AllocError>
    ensures { OnOk result (mentions.new ≡ stat_mentions source.now mentions.old) }
{
    match source {
        CoreStat::Do(value) | CoreStat::Return(value) | CoreStat::Throw(value) => {
            expr(mentions, value)
        }
        CoreStat::Yield {
            value,
            kind,
            result,
        } => {
            expr(mentions, value)?;
            mentions.yielded(*kind, *result)
        }
        CoreStat::If { cases: all } => cases(mentions, all.as_slice()),
        CoreStat::Switch {
            subject,
            cases: all,
        } => {
            expr(mentions, subject)?;
            cases(mentions, all.as_slice())
        }
        CoreStat::Loop {
            labels,
            test,
            update,
            body,
        } => {
            mentions.label(labels.as_slice())?;
            let body = body.as_slice();
            match test {
                Some(test) => {
                    expr(mentions, test)?;
                    match update {
                        Some(update) => {
                            expr(mentions, update)?;
                            stats(mentions, body)
                        }
                        None => stats(mentions, body),
                    }
                }
                None => match update {
                    Some(update) => {
                        expr(mentions, update)?;
                        stats(mentions, body)
                    }
                    None => stats(mentions, body),
                },
            }
        }
        CoreStat::Labelled { label, body } => {
            mentions.labels.push(*label)?;
            stats(mentions, body.as_slice())
        }
        CoreStat::Jump { .. } => Ok(()),
        CoreStat::TryCatch {
            block,
            parameter,
            names,
            handler,
        } => {
            stats(mentions, block.as_slice())?;
            mentions.handler(*parameter, names.as_slice())?;
            stats(mentions, handler.as_slice())
        }
        CoreStat::TryFinally { block, last } => {
            stats(mentions, block.as_slice())?;
            stats(mentions, last.as_slice())
        }
        CoreStat::Scoped { names, body } => {
            mentions.scope(names.as_slice())?;
            stats(mentions, body.as_slice())
        }
    }
}
