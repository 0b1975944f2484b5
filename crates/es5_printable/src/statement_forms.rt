//! Whether statements are those of the grammar (ECMA-262, 5.1 edition, 12 and 14).

ghost use Rattle.std.specs.Prelude.{◌≡◌, ◌&&◌, ◌||◌, is_some, map, not, true};
ghost use Rattle.std.specs.List.{list_all};
ghost use Rattle.std.specs.Option.{option_map};
ghost use Rattle.es5_printable.specs.Parts.{are_closed, else_fits, maybe_fits};
ghost use Rattle.es5_printable.specs.Printable.{begins_strict, block_fit, case_fit, cases_fit, catch_fit, condition_fit, declared_fit, every, expr_fit, for_first_fit, function_fit, some_every, stat_fit, stats_fit};

use crate::expression_forms::{expression_fits, function_fits, optional_fits};
use crate::names::{is_name, is_strict_text, label_fits};
use es5_ast::{Block5, Case5, Catch5, Condition5, Declared5, Expr5, ForFirst5, Function5, Stat5};
use sqlite_items::Boxed;

/// Statements, by whether a function is round them, and whether functions may be declared among them.
#[cycle(walk)]
pub(crate) fn statements_fit(statements: &[Stat5], inside: bool, top: bool) -> bool
    ensures { result ≡ stats_fit inside top (map stat_fit statements.now) }
{
    for statement in statements {
        if !statement_fits(statement, inside, top) {
            return false;
        }
    }
    true
}

#[cycle(walk)]
#[tactic(auto, using(crate::proofs::Split::ends_split))]
fn statement_fits(statement: &Stat5, inside: bool, top: bool) -> bool
    ensures { result ≡ (stat_fit statement.now).fits inside top }
{
    match statement {
        Stat5::Var { declared, .. } => declarations_fit(declared.as_slice()),
        Stat5::FunctionDeclaration(function) => top & declaration_fits(function.get()),
        Stat5::Block(block) => block_fits(block, inside),
        Stat5::Empty { .. } | Stat5::Debugger { .. } => true,
        Stat5::Expression { expression, .. } => expression_fits(expression),
        Stat5::If {
            first,
            more,
            otherwise,
            ..
        } => {
            are_closed(first, more.as_slice(), has_else(otherwise))
                & (condition_fits(first, inside)
                    & (conditions_fit(more.as_slice(), inside) & else_fits(otherwise, inside)))
        }
        Stat5::DoWhile { body, test, .. } => {
            statement_fits(body.get(), inside, false) & expression_fits(test)
        }
        Stat5::While { test, body, .. } => {
            expression_fits(test) & statement_fits(body.get(), inside, false)
        }
        Stat5::For {
            first,
            test,
            update,
            body,
            ..
        } => {
            first_fits(first)
                & (optional_fits(test)
                    & (optional_fits(update) & statement_fits(body.get(), inside, false)))
        }
        Stat5::Continue { label, .. } | Stat5::Break { label, .. } => label_fits(label),
        Stat5::Return { value, .. } => inside & optional_fits(value),
        Stat5::Switch { subject, cases, .. } => {
            expression_fits(subject) & cases_fit(cases.as_slice(), inside)
        }
        Stat5::Labelled { label, body, .. } => {
            is_name(&label.name) & statement_fits(body.get(), inside, false)
        }
        Stat5::Throw { value, .. } => expression_fits(value),
        Stat5::Try {
            block,
            catch,
            finally,
            ..
        } => {
            block_fits(block, inside)
                & ((catch.is_some() | finally.is_some())
                    & (catch_fits(catch, inside) & finally_fits(finally, inside)))
        }
    }
}

/// A declared function has a name (13).
#[cycle(walk)]
fn declaration_fits(function: &Function5) -> bool
    ensures { result ≡ ((function_fit function.now).is_named && (function_fit function.now).fits) }
{
    function.name.is_some() & function_fits(function)
}

#[cycle(walk)]
fn block_fits(block: &Block5, inside: bool) -> bool
    ensures { result ≡ block_fit block.now inside }
{
    statements_fit(block.statements.as_slice(), inside, false)
}

#[cycle(walk)]
fn condition_fits(condition: &Condition5, inside: bool) -> bool
    ensures { result ≡ (condition_fit condition.now).fits inside }
{
    expression_fits(&condition.test) & statement_fits(condition.body.get(), inside, false)
}

#[cycle(walk)]
fn conditions_fit(conditions: &[Condition5], inside: bool) -> bool
    ensures { result ≡ list_all (λ c. c.fits inside) (map condition_fit conditions.now) }
{
    for condition in conditions {
        if !condition_fits(condition, inside) {
            return false;
        }
    }
    true
}

/// What stands after the last `else`, which has no `if` of its own (12.5).
#[cycle(walk)]
fn else_fits(otherwise: &Option<Boxed<Stat5>>, inside: bool) -> bool
    ensures { result ≡ else_fits inside (option_map stat_fit otherwise.now) }
{
    match otherwise {
        Some(statement) => {
            statement_fits(statement.get(), inside, false) & !is_if(statement.get())
        }
        None => true,
    }
}

fn has_else(otherwise: &Option<Boxed<Stat5>>) -> bool
    ensures { result ≡ is_some (option_map stat_fit otherwise.now) }
{
    otherwise.is_some()
}

fn is_if(statement: &Stat5) -> bool
    ensures { result ≡ (stat_fit statement.now).is_if }
{
    matches!(statement, Stat5::If { .. })
}

/// Whether no condition before another, or before an `else`, ends in an `if` without `else` (12.5).
fn are_closed(first: &Condition5, more: &[Condition5], has_else: bool) -> bool
    ensures { result ≡ are_closed (condition_fit first.now) (map condition_fit more.now) has_else }
{
    let mut last = first;
    for condition in more {
        if is_open(last.body.get()) {
            return false;
        }
        last = condition;
    }
    !(has_else & is_open(last.body.get()))
}

/// Whether it ends in an `if` without `else`, to which an `else` after it would belong (12.5).
fn is_open(statement: &Stat5) -> bool
    ensures { result ≡ (stat_fit statement.now).is_open }
{
    match statement {
        Stat5::If { otherwise, .. } => match otherwise {
            Some(statement) => is_open(statement.get()),
            None => true,
        },
        Stat5::While { body, .. } | Stat5::For { body, .. } | Stat5::Labelled { body, .. } => {
            is_open(body.get())
        }
        _ => false,
    }
}

#[cycle(walk)]
fn first_fits(first: &ForFirst5) -> bool
    ensures { result ≡ for_first_fit first.now }
{
    match first {
        ForFirst5::NoFirst => true,
        ForFirst5::FirstVar(declared) => declarations_fit(declared.as_slice()),
        ForFirst5::FirstExpression(expression) => expression_fits(expression),
    }
}

/// At least one declaration (12.2).
#[cycle(walk)]
fn declarations_fit(declared: &[Declared5]) -> bool
    ensures { result ≡ some_every (map declared_fit declared.now) }
{
    !declared.is_empty() & each_declaration_fits(declared)
}

#[cycle(walk)]
fn each_declaration_fits(declared: &[Declared5]) -> bool
    ensures { result ≡ every (map declared_fit declared.now) }
{
    for one in declared {
        if !declared_fits(one) {
            return false;
        }
    }
    true
}

#[cycle(walk)]
fn declared_fits(declared: &Declared5) -> bool
    ensures { result ≡ declared_fit declared.now }
{
    is_name(&declared.name.name) & optional_fits(&declared.init)
}

/// Clauses of a switch statement, of which one at most is the default clause (12.11).
#[cycle(walk)]
fn cases_fit(cases: &[Case5], inside: bool) -> bool
    ensures { result ≡ cases_fit inside true (map case_fit cases.now) }
{
    let mut may = true;
    for case in cases {
        if !case_fits(case, inside, may) {
            return false;
        }
        may = may & case.test.is_some();
    }
    true
}

#[cycle(walk)]
fn case_fits(case: &Case5, inside: bool, may: bool) -> bool
    ensures { result ≡ ((case_fit case.now).fits inside && (not (case_fit case.now).is_default || may)) }
{
    (optional_fits(&case.test) & statements_fit(case.body.as_slice(), inside, false))
        & (case.test.is_some() | may)
}

#[cycle(walk)]
fn catch_fits(catch: &Option<Catch5>, inside: bool) -> bool
    ensures { result ≡ maybe_fits inside (option_map catch_fit catch.now) }
{
    match catch {
        Some(catch) => is_name(&catch.parameter.name) & block_fits(&catch.body, inside),
        None => true,
    }
}

#[cycle(walk)]
fn finally_fits(finally: &Option<Block5>, inside: bool) -> bool
    ensures { result ≡ maybe_fits inside (option_map block_fit finally.now) }
{
    match finally {
        Some(block) => block_fits(block, inside),
        None => true,
    }
}

/// Whether the first statement is the directive of strict code (14.1).
pub(crate) fn begins_strict(statements: &[Stat5]) -> bool
    ensures { result ≡ begins_strict (map stat_fit statements.now) }
{
    match statements.first() {
        Some(statement) => is_directive(statement),
        None => false,
    }
}

fn is_directive(statement: &Stat5) -> bool
    ensures { result ≡ (stat_fit statement.now).is_strict }
{
    match statement {
        Stat5::Expression { expression, .. } => is_strict_literal(expression),
        _ => false,
    }
}

fn is_strict_literal(expression: &Expr5) -> bool
    ensures { result ≡ (expr_fit expression.now).is_strict }
{
    match expression {
        Expr5::Literal { literal, .. } => is_strict_text(literal),
        _ => false,
    }
}
