//! Statements and declarations (ECMA-262, 6th edition, 13).

ghost use Rattle.std.specs.Prelude.{◌≡◌, ◌++◌, map, OnOk};
ghost use Rattle.std.specs.Option.{option_map};
ghost use Rattle.es6_static_semantics.specs.Findings.{joined, maybe};
ghost use Rattle.scope_rules.specs.Marks.{block_marked, block_marks, case_marked, catch_marked, condition_marked, expression_marked, for_first_marked, for_target_marked, in_head, in_loop, in_scope, pattern_marked, statement_marked};
ghost use Rattle.scope_rules.specs.declared.kinds.ScopeKind.TheVariants as scope;
ghost use Rattle.scope_walk.specs.Walked.{headed_parts, looped_parts};
ghost use Rattle.scope_rules.specs.declared.kinds.Kind.TheVariants as kind;
ghost use Rattle.scope_rules.specs.declared.kinds.Role.TheVariants.{Declared};

use crate::expressions::{expression, optional, optional_boxed};
use crate::functions::{declared_class, declared_function};
use crate::patterns::{targets, variables};
use es6_ast::{Block, Case, Catch, Condition, Expression, ForFirst, ForTarget, Pattern, Statement};
use scope_heads::kind_of;
use scope_rules::{Kind, Marks, Role, ScopeKind};
use sqlite_items::Boxed;
use std::alloc::AllocError;

/// The marks of a statement.
#[cycle(walk)]
pub fn statement<'a>(marks: &mut Marks<'a>, node: &'a Statement) -> Result<(), AllocError>
    ensures { OnOk result (marks.new ≡ marks.old ++ statement_marked node.now) }
{
    match node {
        Statement::Block(inner) => block(marks, inner),
        Statement::Variables { kind, parts, .. } => {
            variables(marks, kind_of(*kind), parts.as_slice())
        }
        Statement::Empty { .. }
        | Statement::Continue { .. }
        | Statement::Break { .. }
        | Statement::Debugger { .. } => Ok(()),
        Statement::Expression {
            expression: value,
            ..
        } => expression(marks, value),
        Statement::If {
            first,
            more,
            otherwise: last,
            ..
        } => {
            condition(marks, first)?;
            conditions(marks, more.as_slice())?;
            otherwise(marks, last)
        }
        Statement::DoWhile { .. }
        | Statement::While { .. }
        | Statement::For { .. }
        | Statement::ForOf { .. } => looped(marks, node),
        Statement::Return { value, .. } => optional(marks, value),
        Statement::Switch {
            span,
            subject,
            cases,
        } => {
            expression(marks, subject)?;
            clauses(marks, cases.as_slice(), span.begin)
        }
        Statement::Labelled { body, .. } => statement(marks, body.get()),
        Statement::Throw { value, .. } => expression(marks, value),
        Statement::Try {
            block: tried,
            catch: caught,
            finally: last,
            ..
        } => {
            block(marks, tried)?;
            optional_catch(marks, caught)?;
            finally(marks, last)
        }
        Statement::FunctionDeclaration(function) => declared_function(marks, function.get()),
        Statement::ClassDeclaration(class) => declared_class(marks, class.get()),
    }
}

/// A loop.
#[cycle(walk)]
fn looped<'a>(marks: &mut Marks<'a>, node: &'a Statement) -> Result<(), AllocError>
    ensures { OnOk result (marks.new ≡ marks.old ++ in_loop (looped_parts node.now)) }
{
    marks.begin_loop()?;
    loop_parts(marks, node)?;
    marks.end_loop()
}

/// What stands in a loop.
#[cycle(walk)]
fn loop_parts<'a>(marks: &mut Marks<'a>, node: &'a Statement) -> Result<(), AllocError>
    ensures { OnOk result (marks.new ≡ marks.old ++ looped_parts node.now) }
{
    match node {
        Statement::DoWhile { body, test, .. } => {
            statement(marks, body.get())?;
            expression(marks, test)
        }
        Statement::While { test, body, .. } => {
            expression(marks, test)?;
            statement(marks, body.get())
        }
        Statement::For { span, .. } | Statement::ForOf { span, .. } => {
            marks.begin_scope(ScopeKind::Block, span.begin)?;
            headed(marks, node)?;
            marks.end_scope()
        }
        _ => Ok(()),
    }
}

/// What stands in the scope of a loop's head.
#[cycle(walk)]
fn headed<'a>(marks: &mut Marks<'a>, node: &'a Statement) -> Result<(), AllocError>
    ensures { OnOk result (marks.new ≡ marks.old ++ headed_parts node.now) }
{
    match node {
        Statement::For {
            first,
            test,
            update,
            body,
            ..
        } => {
            for_first(marks, first.get())?;
            optional_boxed(marks, test)?;
            optional_boxed(marks, update)?;
            statement(marks, body.get())
        }
        Statement::ForOf {
            target,
            subject: values,
            body,
            ..
        } => {
            for_target(marks, target.get())?;
            subject(marks, values)?;
            statement(marks, body.get())
        }
        _ => Ok(()),
    }
}

/// The subject of a for-of, in which no name of its head has its value (13.7.5.12).
#[cycle(walk)]
fn subject<'a>(marks: &mut Marks<'a>, value: &'a Expression) -> Result<(), AllocError>
    ensures { OnOk result (marks.new ≡ marks.old ++ in_head (expression_marked value.now).marks) }
{
    marks.begin_head()?;
    expression(marks, value)?;
    marks.end_head()
}

#[cycle(walk)]
pub(crate) fn statements<'a>(marks: &mut Marks<'a>, list: &'a [Statement]) -> Result<(), AllocError>
    ensures { OnOk result (marks.new ≡ marks.old ++ joined (λ s. s) (map statement_marked list.now)) }
{
    for item in list {
        statement(marks, item)?;
    }
    Ok(())
}

#[cycle(walk)]
fn otherwise<'a>(
    marks: &mut Marks<'a>,
    last: &'a Option<Boxed<Statement>>,
) -> Result<(), AllocError>
    ensures { OnOk result (marks.new ≡ marks.old ++ maybe (λ s. s) (option_map statement_marked last.now)) }
{
    match last {
        None => Ok(()),
        Some(last) => statement(marks, last.get()),
    }
}

#[cycle(walk)]
fn conditions<'a>(marks: &mut Marks<'a>, conditions: &'a [Condition]) -> Result<(), AllocError>
    ensures { OnOk result (marks.new ≡ marks.old ++ joined (λ c. c) (map condition_marked conditions.now)) }
{
    for item in conditions {
        condition(marks, item)?;
    }
    Ok(())
}

#[cycle(walk)]
#[tactic(auto, using(crate::proofs::Layers::condition_out))]
fn condition<'a>(marks: &mut Marks<'a>, item: &'a Condition) -> Result<(), AllocError>
    ensures { OnOk result (marks.new ≡ marks.old ++ condition_marked item.now) }
{
    expression(marks, item.test.get())?;
    statement(marks, item.body.get())
}

#[cycle(walk)]
#[tactic(auto, using(crate::proofs::Layers::block_begin_out))]
fn block<'a>(marks: &mut Marks<'a>, node: &'a Block) -> Result<(), AllocError>
    ensures { OnOk result (marks.new ≡ marks.old ++ block_marks (block_marked node.now)) }
{
    marks.begin_scope(ScopeKind::Block, node.span.begin)?;
    block_statements(marks, node)?;
    marks.end_scope()
}

#[cycle(walk)]
#[tactic(auto, using(crate::proofs::Layers::block_inner_out))]
pub(crate) fn block_statements<'a>(marks: &mut Marks<'a>, node: &'a Block) -> Result<(), AllocError>
    ensures { OnOk result (marks.new ≡ marks.old ++ (block_marked node.now).inner) }
{
    statements(marks, node.statements.as_slice())
}

#[cycle(walk)]
fn finally<'a>(marks: &mut Marks<'a>, last: &'a Option<Block>) -> Result<(), AllocError>
    ensures { OnOk result (marks.new ≡ marks.old ++ maybe block_marks (option_map block_marked last.now)) }
{
    match last {
        None => Ok(()),
        Some(last) => block(marks, last),
    }
}

#[cycle(walk)]
fn optional_catch<'a>(
    marks: &mut Marks<'a>,
    clause: &'a Option<Boxed<Catch>>,
) -> Result<(), AllocError>
    ensures { OnOk result (marks.new ≡ marks.old ++ maybe (λ h. h) (option_map catch_marked clause.now)) }
{
    match clause {
        None => Ok(()),
        Some(clause) => catch(marks, clause.get()),
    }
}

#[cycle(walk)]
#[tactic(auto, using(crate::proofs::Layers::catch_out, crate::proofs::Layers::block_begin_out))]
fn catch<'a>(marks: &mut Marks<'a>, clause: &'a Catch) -> Result<(), AllocError>
    ensures { OnOk result (marks.new ≡ marks.old ++ catch_marked clause.now) }
{
    marks.begin_scope(ScopeKind::Block, clause.span.begin)?;
    caught(marks, &clause.parameter, clause.body.span.begin)?;
    block(marks, &clause.body)?;
    marks.end_scope()
}

/// The parameter of a catch, whose declarator ends where the block begins (13.15.7).
#[cycle(walk)]
fn caught<'a>(marks: &mut Marks<'a>, parameter: &'a Pattern, end: u32) -> Result<(), AllocError>
    ensures { OnOk result (marks.new ≡ marks.old ++ in_head ((pattern_marked parameter.now).marks (Declared kind.Caught end))) }
{
    marks.begin_head()?;
    targets(
        marks,
        parameter,
        Role::Declared {
            kind: Kind::Caught,
            end,
        },
    )?;
    marks.end_head()
}

#[cycle(walk)]
fn for_first<'a>(marks: &mut Marks<'a>, first: &'a ForFirst) -> Result<(), AllocError>
    ensures { OnOk result (marks.new ≡ marks.old ++ for_first_marked first.now) }
{
    match first {
        ForFirst::NoFirst => Ok(()),
        ForFirst::FirstVariables { kind, parts, .. } => {
            variables(marks, kind_of(*kind), parts.as_slice())
        }
        ForFirst::FirstExpression(value) => expression(marks, value),
    }
}

#[cycle(walk)]
fn for_target<'a>(marks: &mut Marks<'a>, target: &'a ForTarget) -> Result<(), AllocError>
    ensures { OnOk result (marks.new ≡ marks.old ++ for_target_marked target.now) }
{
    match target {
        ForTarget::Declared {
            span,
            kind,
            pattern,
        } => {
            let (kind, end) = (kind_of(*kind), span.end);
            targets(marks, pattern, Role::Declared { kind, end })
        }
        ForTarget::Assigned(pattern) => targets(marks, pattern, Role::Assigned),
    }
}

/// The clauses of a switch.
#[cycle(walk)]
fn clauses<'a>(marks: &mut Marks<'a>, list: &'a [Case], begin: u32) -> Result<(), AllocError>
    ensures { OnOk result (marks.new ≡ marks.old ++ in_scope scope.Cases begin (joined (λ c. c) (map case_marked list.now))) }
{
    marks.begin_scope(ScopeKind::Cases, begin)?;
    cases(marks, list)?;
    marks.end_scope()
}

#[cycle(walk)]
fn cases<'a>(marks: &mut Marks<'a>, list: &'a [Case]) -> Result<(), AllocError>
    ensures { OnOk result (marks.new ≡ marks.old ++ joined (λ c. c) (map case_marked list.now)) }
{
    for item in list {
        case(marks, item)?;
    }
    Ok(())
}

#[cycle(walk)]
#[tactic(auto, using(crate::proofs::Layers::case_out))]
fn case<'a>(marks: &mut Marks<'a>, item: &'a Case) -> Result<(), AllocError>
    ensures { OnOk result (marks.new ≡ marks.old ++ case_marked item.now) }
{
    optional(marks, &item.test)?;
    statements(marks, item.body.as_slice())
}
