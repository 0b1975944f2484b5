//! The scopes in statements, and the var names of these (ECMA-262, 6th edition, 13). No function in them is entered.

ghost use Rattle.std.specs.Prelude.{◌≡◌, ◌++◌, [], drop, map, OnOk};
ghost use Rattle.std.specs.Option.{option_map};
ghost use Rattle.es6_static_semantics.specs.Findings.{joined, maybe, repeated, shared};
ghost use Rattle.es6_static_semantics.specs.Early.{block_found, block_lexical, block_scopes, block_vars, case_found, catch_found, catch_scopes, condition_found, for_first_found, for_target_found, head_pairs, pattern_found, statement_found, statements_scopes};
ghost use Rattle.early_findings.specs.Pairs.{least_with};
ghost use Rattle.early_scopes.specs.Tried.{tried_scopes, tried_vars};

use crate::heads::{self, add_first_vars, add_target_vars, add_vars};
use crate::rules;
use crate::var_names::VarNames;
use early_findings::Finder;
use early_names::{add_block_lexical, add_pattern_names};
use es6_ast::{Block, Case, Catch, Condition, ForFirst, ForTarget, Pattern, Statement};
use sqlite_items::Boxed;
use std::alloc::AllocError;

/// Meets the errors of the scopes in a statement, and adds its var names.
#[cycle(scopes)]
pub(crate) fn statement<'a>(
    finder: &mut Finder,
    vars: &mut VarNames<'a>,
    statement: &'a Statement,
) -> Result<(), AllocError>
    ensures scopes { OnOk result (finder.new ≡ least_with finder.old (statement_found statement.now).scopes) }
    ensures vars { OnOk result (vars.new ≡ vars.old ++ (statement_found statement.now).vars) }
{
    match statement {
        Statement::Block(block) => self::block(finder, vars, block),
        Statement::Variables { kind, parts, .. } => add_vars(vars, *kind, parts.as_slice()),
        Statement::If {
            first,
            more,
            otherwise,
            ..
        } => {
            condition(finder, vars, first)?;
            conditions(finder, vars, more.as_slice())?;
            self::otherwise(finder, vars, otherwise)
        }
        Statement::For { first, body, .. } => {
            add_first_vars(vars, first.get())?;
            for_body(finder, vars, body.get(), first.get())
        }
        Statement::ForOf { target, body, .. } => {
            add_target_vars(vars, target.get())?;
            for_of_body(finder, vars, body.get(), target.get())
        }
        Statement::DoWhile { body, .. }
        | Statement::While { body, .. }
        | Statement::Labelled { body, .. } => self::statement(finder, vars, body.get()),
        Statement::Switch { cases, .. } => self::cases(finder, vars, cases.as_slice()),
        Statement::Try { .. } => tried(finder, vars, statement),
        _ => Ok(()),
    }
}

/// The parts of a try statement.
#[cycle(scopes)]
fn tried<'a>(
    finder: &mut Finder,
    vars: &mut VarNames<'a>,
    statement: &'a Statement,
) -> Result<(), AllocError>
    ensures scopes { OnOk result (finder.new ≡ least_with finder.old (tried_scopes statement.now)) }
    ensures vars { OnOk result (vars.new ≡ vars.old ++ tried_vars statement.now) }
{
    match statement {
        Statement::Try {
            block,
            catch,
            finally,
            ..
        } => {
            self::block(finder, vars, block)?;
            optional_catch(finder, vars, catch)?;
            self::finally(finder, vars, finally)
        }
        _ => Ok(()),
    }
}

/// The scopes in the statements of a block or a clause.
#[cycle(scopes)]
fn statements<'a>(
    finder: &mut Finder,
    vars: &mut VarNames<'a>,
    statements: &'a [Statement],
) -> Result<(), AllocError>
    ensures scopes { OnOk result (finder.new ≡ least_with finder.old (statements_scopes (map statement_found statements.now))) }
    ensures vars { OnOk result (vars.new ≡ vars.old ++ block_vars (map statement_found statements.now)) }
{
    for statement in statements {
        self::statement(finder, vars, statement)?;
    }
    Ok(())
}

/// A block, with E1 and E2 (13.2.1).
#[cycle(scopes)]
#[tactic(auto, using(crate::proofs::Passing::passing, crate::proofs::Layers::block_out))]
fn block<'a>(
    finder: &mut Finder,
    vars: &mut VarNames<'a>,
    block: &'a Block,
) -> Result<(), AllocError>
    ensures scopes { OnOk result (finder.new ≡ least_with finder.old (block_scopes (block_found block.now))) }
    ensures vars { OnOk result (vars.new ≡ vars.old ++ block_vars (block_found block.now)) }
{
    block_statements(finder, vars, block.statements.as_slice())
}

#[cycle(scopes)]
fn block_statements<'a>(
    finder: &mut Finder,
    vars: &mut VarNames<'a>,
    statements: &'a [Statement],
) -> Result<(), AllocError>
    ensures scopes { OnOk result (finder.new ≡ least_with finder.old (block_scopes (map statement_found statements.now))) }
    ensures vars { OnOk result (vars.new ≡ vars.old ++ block_vars (map statement_found statements.now)) }
{
    let mark = vars.len();
    self::statements(finder, vars, statements)?;
    rules::block(finder, statements, vars, mark)
}

#[cycle(scopes)]
fn otherwise<'a>(
    finder: &mut Finder,
    vars: &mut VarNames<'a>,
    statement: &'a Option<Boxed<Statement>>,
) -> Result<(), AllocError>
    ensures scopes { OnOk result (finder.new ≡ least_with finder.old (maybe (λ s. s.scopes) (option_map statement_found statement.now))) }
    ensures vars { OnOk result (vars.new ≡ vars.old ++ maybe (λ s. s.vars) (option_map statement_found statement.now)) }
{
    match statement {
        None => Ok(()),
        Some(statement) => self::statement(finder, vars, statement.get()),
    }
}

#[cycle(scopes)]
fn conditions<'a>(
    finder: &mut Finder,
    vars: &mut VarNames<'a>,
    conditions: &'a [Condition],
) -> Result<(), AllocError>
    ensures scopes { OnOk result (finder.new ≡ least_with finder.old (joined (λ c. c.scopes) (map condition_found conditions.now))) }
    ensures vars { OnOk result (vars.new ≡ vars.old ++ joined (λ c. c.vars) (map condition_found conditions.now)) }
{
    for condition in conditions {
        self::condition(finder, vars, condition)?;
    }
    Ok(())
}

#[cycle(scopes)]
#[tactic(auto, using(crate::proofs::Passing::passing, crate::proofs::Layers::condition_out))]
fn condition<'a>(
    finder: &mut Finder,
    vars: &mut VarNames<'a>,
    condition: &'a Condition,
) -> Result<(), AllocError>
    ensures scopes { OnOk result (finder.new ≡ least_with finder.old (condition_found condition.now).scopes) }
    ensures vars { OnOk result (vars.new ≡ vars.old ++ (condition_found condition.now).vars) }
{
    statement(finder, vars, condition.body.get())
}

/// The body of a for statement, with E1 and E6 (13.7.4.1).
#[cycle(scopes)]
fn for_body<'a>(
    finder: &mut Finder,
    vars: &mut VarNames<'a>,
    body: &'a Statement,
    first: &'a ForFirst,
) -> Result<(), AllocError>
    ensures scopes { OnOk result (finder.new ≡ least_with finder.old ((statement_found body.now).scopes ++ head_pairs (for_first_found first.now).lexical (statement_found body.now).vars)) }
    ensures vars { OnOk result (vars.new ≡ vars.old ++ (statement_found body.now).vars) }
{
    let mark = vars.len();
    statement(finder, vars, body)?;
    heads::first(finder, first, vars, mark)
}

/// The body of a for-of statement, with E1 and E6 (13.7.5.1).
#[cycle(scopes)]
fn for_of_body<'a>(
    finder: &mut Finder,
    vars: &mut VarNames<'a>,
    body: &'a Statement,
    target: &'a ForTarget,
) -> Result<(), AllocError>
    ensures scopes { OnOk result (finder.new ≡ least_with finder.old ((statement_found body.now).scopes ++ head_pairs (for_target_found target.now).lexical (statement_found body.now).vars)) }
    ensures vars { OnOk result (vars.new ≡ vars.old ++ (statement_found body.now).vars) }
{
    let mark = vars.len();
    statement(finder, vars, body)?;
    heads::target(finder, target, vars, mark)
}

/// The clauses of a switch, with E1 and E2 (13.12.1).
#[cycle(scopes)]
fn cases<'a>(
    finder: &mut Finder,
    vars: &mut VarNames<'a>,
    cases: &'a [Case],
) -> Result<(), AllocError>
    ensures scopes { OnOk result (finder.new ≡ least_with finder.old (block_scopes (joined (λ c. c.body) (map case_found cases.now)))) }
    ensures vars { OnOk result (vars.new ≡ vars.old ++ block_vars (joined (λ c. c.body) (map case_found cases.now))) }
{
    let mark = vars.len();
    clauses(finder, vars, cases)?;
    rules::cases(finder, cases, vars, mark)
}

#[cycle(scopes)]
fn clauses<'a>(
    finder: &mut Finder,
    vars: &mut VarNames<'a>,
    cases: &'a [Case],
) -> Result<(), AllocError>
    ensures scopes { OnOk result (finder.new ≡ least_with finder.old (statements_scopes (joined (λ c. c.body) (map case_found cases.now)))) }
    ensures vars { OnOk result (vars.new ≡ vars.old ++ block_vars (joined (λ c. c.body) (map case_found cases.now))) }
{
    for case in cases {
        statements(finder, vars, case.body.as_slice())?;
    }
    Ok(())
}

#[cycle(scopes)]
fn optional_catch<'a>(
    finder: &mut Finder,
    vars: &mut VarNames<'a>,
    catch: &'a Option<Boxed<Catch>>,
) -> Result<(), AllocError>
    ensures scopes { OnOk result (finder.new ≡ least_with finder.old (maybe (λ h. h.scopes) (option_map catch_found catch.now))) }
    ensures vars { OnOk result (vars.new ≡ vars.old ++ maybe (λ h. h.vars) (option_map catch_found catch.now)) }
{
    match catch {
        None => Ok(()),
        Some(catch) => self::catch(finder, vars, catch.get()),
    }
}

#[cycle(scopes)]
#[tactic(auto, using(crate::proofs::Passing::passing, crate::proofs::Layers::catch_out))]
fn catch<'a>(
    finder: &mut Finder,
    vars: &mut VarNames<'a>,
    catch: &'a Catch,
) -> Result<(), AllocError>
    ensures scopes { OnOk result (finder.new ≡ least_with finder.old (catch_found catch.now).scopes) }
    ensures vars { OnOk result (vars.new ≡ vars.old ++ (catch_found catch.now).vars) }
{
    handler(
        finder,
        vars,
        catch.body.statements.as_slice(),
        &catch.parameter,
    )
}

/// The block of a catch, with E1, E2 and E5 (13.2.1, 13.15.1).
#[cycle(scopes)]
fn handler<'a>(
    finder: &mut Finder,
    vars: &mut VarNames<'a>,
    statements: &'a [Statement],
    parameter: &'a Pattern,
) -> Result<(), AllocError>
    ensures scopes { OnOk result (finder.new ≡ least_with finder.old (catch_scopes (pattern_found parameter.now) (map statement_found statements.now))) }
    ensures vars { OnOk result (vars.new ≡ vars.old ++ block_vars (map statement_found statements.now)) }
{
    let mark = vars.len();
    block_statements(finder, vars, statements)?;
    handler_names(finder, vars, statements, parameter, mark)
}

/// E5, of the names of a catch's parameter and those of its block, whose var names are those from an index on.
fn handler_names(
    finder: &mut Finder,
    vars: &VarNames,
    statements: &[Statement],
    parameter: &Pattern,
    mark: usize,
) -> Result<(), AllocError>
    ensures { OnOk result (finder.new ≡ least_with finder.old (repeated 5 [] (pattern_found parameter.now).names ++ shared 5 (pattern_found parameter.now).names (block_lexical (map statement_found statements.now) ++ drop mark vars.now))) }
{
    let mut names = Vec::new(finder.alloc());
    add_pattern_names(&mut names, parameter)?;
    let mut lexical = Vec::new(finder.alloc());
    add_block_lexical(&mut lexical, statements)?;
    rules::parameter(finder, names.as_slice(), lexical.as_slice(), vars, mark)
}

#[cycle(scopes)]
fn finally<'a>(
    finder: &mut Finder,
    vars: &mut VarNames<'a>,
    block: &'a Option<Block>,
) -> Result<(), AllocError>
    ensures scopes { OnOk result (finder.new ≡ least_with finder.old (maybe block_scopes (option_map block_found block.now))) }
    ensures vars { OnOk result (vars.new ≡ vars.old ++ maybe block_vars (option_map block_found block.now)) }
{
    match block {
        None => Ok(()),
        Some(block) => self::block(finder, vars, block),
    }
}
