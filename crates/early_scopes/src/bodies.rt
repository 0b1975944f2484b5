//! The body of a function with its parameters (ECMA-262, 6th edition, 14.1 and 14.2).

ghost use Rattle.std.specs.Prelude.{◌≡◌, ◌++◌, drop, map, not, OnOk};
ghost use Rattle.es6_static_semantics.specs.Findings.{joined, maybe, shared, when};
ghost use Rattle.es6_static_semantics.specs.Early.{are_plain, body_scopes, parameter_found, parameter_names, scope_pairs, statement_found, statements_scopes, strict_directive};
ghost use Rattle.early_findings.specs.Pairs.{least_with};

use crate::rules::scope;
use crate::statements::statement;
use crate::var_names::VarNames;
use early_findings::Finder;
use early_names::{
    PlacedName, add_body_lexical, add_parameter_names, are_plain, function_name, shared,
    strict_directive,
};
use es6_ast::{Parameter, Statement};
use std::alloc::AllocError;

/// The errors of a body's scopes with its parameters: E1, E2, E5 and E6 in it, E3 and E25. It fails where memory runs out.
pub fn body(
    finder: &mut Finder,
    parameters: &[Parameter],
    statements: &[Statement],
) -> Result<(), AllocError>
    ensures { OnOk result (finder.new ≡ least_with finder.old (body_scopes (map parameter_found parameters.now) (map statement_found statements.now))) }
{
    let mut lexical = Vec::new(finder.alloc());
    add_body_lexical(&mut lexical, statements)?;
    body_scope(finder, lexical.as_slice(), statements)?;
    parameter_names(finder, parameters, lexical.as_slice())?;
    strict(finder, parameters, statements);
    Ok(())
}

fn body_scope(
    finder: &mut Finder,
    lexical: &[PlacedName],
    statements: &[Statement],
) -> Result<(), AllocError>
    ensures { OnOk result (finder.new ≡ least_with finder.old (statements_scopes (map statement_found statements.now) ++ scope_pairs lexical.now (joined (λ s. s.functions ++ s.vars) (map statement_found statements.now)))) }
{
    let mut vars = VarNames::new(finder.alloc());
    body_statements(finder, &mut vars, statements)?;
    scope(finder, lexical, &vars, 0)
}

/// The scopes in the statements of a body, in which a function's name is a var name.
fn body_statements<'a>(
    finder: &mut Finder,
    vars: &mut VarNames<'a>,
    statements: &'a [Statement],
) -> Result<(), AllocError>
    ensures scopes { OnOk result (finder.new ≡ least_with finder.old (statements_scopes (map statement_found statements.now))) }
    ensures vars { OnOk result (vars.new ≡ vars.old ++ joined (λ s. s.functions ++ s.vars) (map statement_found statements.now)) }
{
    for statement in statements {
        body_statement(finder, vars, statement)?;
    }
    Ok(())
}

fn body_statement<'a>(
    finder: &mut Finder,
    vars: &mut VarNames<'a>,
    statement: &'a Statement,
) -> Result<(), AllocError>
    ensures scopes { OnOk result (finder.new ≡ least_with finder.old (statement_found statement.now).scopes) }
    ensures vars { OnOk result (vars.new ≡ vars.old ++ (statement_found statement.now).functions ++ (statement_found statement.now).vars) }
{
    if let Some(name) = function_name(statement) {
        vars.push(name)?;
    }
    self::statement(finder, vars, statement)
}

/// E3, at a lexical name of a body that is a parameter too.
fn parameter_names(
    finder: &mut Finder,
    parameters: &[Parameter],
    lexical: &[PlacedName],
) -> Result<(), AllocError>
    ensures { OnOk result (finder.new ≡ least_with finder.old (shared 3 (parameter_names (map parameter_found parameters.now)) lexical.now)) }
{
    let mut names = Vec::new(finder.alloc());
    add_parameter_names(&mut names, parameters)?;
    shared(finder, 3, names.as_slice(), lexical)
}

/// E25, at a directive of strict code.
fn strict(finder: &mut Finder, parameters: &[Parameter], statements: &[Statement])
    ensures { finder.new ≡ least_with finder.old (maybe (λ at. when (not (are_plain (map parameter_found parameters.now))) 25 at) (strict_directive (map statement_found statements.now))) }
{
    if let Some(at) = strict_directive(statements) {
        finder.when(!are_plain(parameters), 25, at);
    }
}
