//! Whether `arguments` is referred to, by the marks of parameters and statements: a scope that has its own counts for nothing.

ghost use Rattle.std.specs.Prelude.{◌≡◌, ◌++◌, ◌<◌, IfOk, None, OnOk};
ghost use Rattle.es6_static_semantics.specs.Findings.{joined};
ghost use Rattle.scope_rules.specs.Marks.{parameter_marked, statement_marked};
ghost use Rattle.scope_rules.specs.declared.kinds.Kind.TheVariants as kind;
ghost use Rattle.scope_rules.specs.declared.kinds.Role.TheVariants as role;
ghost use Rattle.source_meaning.specs.Trees.{is_arguments, mentions, mentions_arguments};
ghost use Rattle.source_trees.specs.Mentions.{behind_mark, behind_outside, behind_within, told};

use es6_ast::Parameter;
use scope_rules::{Kind, Mark, Marks, Role};
use scope_walk::{part, statement, targets};
use source_state::Statements;
use std::alloc::{AllocError, Global};

fn is_arguments(kind: Kind) -> bool
    ensures { result ≡ is_arguments kind }
{
    matches!(kind, Kind::Arguments)
}

/// What a mark opens where no scope round it has `arguments` of its own.
fn behind_outside(mark: &Mark) -> usize
    ensures { result ≡ behind_outside mark.now }
{
    match mark {
        Mark::Declares { kind, .. } => usize::from(is_arguments(*kind)),
        _ => 0,
    }
}

/// How many scopes are open, behind a mark inside one that has `arguments` of its own.
fn behind_within(depth: usize, mark: &Mark) -> usize
    requires { depth < usize.MAX }
    ensures { result ≡ behind_within depth mark.now }
{
    match mark {
        Mark::ScopeBegins { .. } => depth + 1,
        Mark::ScopeEnds => depth.saturating_sub(1),
        _ => depth,
    }
}

/// How many scopes are open from the one on that has `arguments` of its own, behind a mark.
fn behind_mark(depth: usize, mark: &Mark) -> usize
    requires { depth < usize.MAX }
    ensures { result ≡ behind_mark depth mark.now }
{
    if depth == 0 {
        behind_outside(mark)
    } else {
        behind_within(depth, mark)
    }
}

/// Whether a mark is a reference to `arguments`, where none of the scopes that are open has its own.
fn told(depth: usize, mark: &Mark) -> bool
    ensures { result ≡ told depth mark.now }
{
    match mark {
        Mark::Refers { name, .. } => depth == 0 && b"arguments".as_slice() == name.bytes(),
        _ => false,
    }
}

#[tactic(auto, using(crate::proofs::Mentioned::mentions_step))]
fn mentions(marks: &[Mark]) -> bool
    ensures { result ≡ mentions None marks.now }
{
    let mut depth = 0;
    for mark in marks {
        if told(depth, mark) {
            return true;
        }
        depth = behind_mark(depth, mark);
    }
    false
}

fn add_parameter<'a>(marks: &mut Marks<'a>, parameter: &'a Parameter) -> Result<(), AllocError>
    ensures { OnOk result (marks.new ≡ marks.old ++ (parameter_marked parameter.now).marks (role.Declared kind.Parameter 0)) }
{
    let kind = Kind::Parameter;
    match parameter {
        Parameter::SingleParameter(single) => part(marks, single, Role::Declared { kind, end: 0 }),
        Parameter::RestParameter { pattern, .. } => {
            targets(marks, pattern, Role::Declared { kind, end: 0 })
        }
    }
}

fn add_parameters<'a>(marks: &mut Marks<'a>, parameters: &'a [Parameter]) -> Result<(), AllocError>
    ensures { OnOk result (marks.new ≡ marks.old ++ joined (λ p. (parameter_marked p).marks (role.Declared kind.Parameter 0)) parameters.now) }
{
    for parameter in parameters {
        add_parameter(marks, parameter)?;
    }
    Ok(())
}

fn add_statements<'a>(marks: &mut Marks<'a>, statements: &Statements<'a>) -> Result<(), AllocError>
    ensures { OnOk result (marks.new ≡ marks.old ++ joined statement_marked statements.now) }
{
    let mut rest = statements.share();
    'statements: while let Some((first, behind)) = rest.first() {
        statement(marks, first)?;
        rest = behind;
    }
    Ok(())
}

/// Whether a function of these parameters and statements refers to `arguments`, in arrows too.
pub fn mentions_arguments<'a>(
    alloc: Global,
    parameters: &'a [Parameter],
    statements: &Statements<'a>,
) -> Result<bool, AllocError>
    ensures { IfOk result (λ told. told ≡ mentions_arguments parameters.now statements.now) }
{
    let mut marks = Marks::new(alloc);
    add_parameters(&mut marks, parameters)?;
    add_statements(&mut marks, statements)?;
    Ok(mentions(marks.as_slice()))
}
