//! The walk through statements (ECMA-262, 5.1 edition, 12).

ghost use Rattle.std.specs.Prelude.{◌≡◌, ◌++◌, [], Some, map, OnOk};
ghost use Rattle.std.specs.Option.{option_map};
ghost use Rattle.script_lowering.specs.Gathering.{Gathers};
ghost use Rattle.script_lowering.specs.Nodes.{block_read, case_read, catch_read, condition_read, declared_read, expr_read, for_first_read, stat_read, whole_read};
ghost use Rattle.script_lowering.specs.Reading.{gives, reads_each, reads_one, reads_onto, reads_perhaps};
ghost use Rattle.script_lowering.specs.Statements.{all_stats, caught, declared_function, declared_with, do_while, ended, for_loop, if_stat, joined, looping, otherwise, perhaps_stats, plain, stats_of, stats_onto};

use crate::expressions::{expr, function, optional};
use crate::gathered::Gathered;
use crate::read::StatRead;
use crate::sites::Sites;
use crate::statements::{
    alone, case_with, do_while, for_loop, labelled, plain, push_declared, push_otherwise, returned,
    single,
};
use core_ast::{CoreCase, CoreExpr, CoreStat, Var};
use es5_ast::{
    Block5, Case5, Catch5, Condition5, Declared5, Expr5, ForFirst5, Function5, Identifier5, Stat5,
};
use sqlite_items::{Boxed, Items};
use std::alloc::{AllocError, Global};

/// Statements of their own.
#[cycle(walk)]
pub(crate) fn body<'a>(
    alloc: Global,
    sites: Sites,
    source: &'a [Stat5],
    reading: &mut Gathered<'a>,
) -> Result<Items<CoreStat>, AllocError>
    ensures { Gathers result reading.new (all_stats (map (stat_read sites) source.now) reading.old) }
{
    let mut made = Items::new(alloc);
    for one in source {
        made.append(under(alloc, sites, one, reading)?)?;
    }
    Ok(made)
}

/// The statements of one, to which no label goes.
#[cycle(walk)]
fn under<'a>(
    alloc: Global,
    sites: Sites,
    source: &'a Stat5,
    reading: &mut Gathered<'a>,
) -> Result<Items<CoreStat>, AllocError>
    ensures { Gathers result reading.new (stats_of (stat_read sites source.now) reading.old) }
{
    let StatRead { stats, is_loop: _ } = stat(alloc, sites, source, reading)?;
    Ok(stats)
}

#[cycle(walk)]
fn stat<'a>(
    alloc: Global,
    sites: Sites,
    source: &'a Stat5,
    reading: &mut Gathered<'a>,
) -> Result<StatRead, AllocError>
    ensures { Gathers result reading.new (stat_read sites source.now reading.old) }
{
    match source {
        Stat5::Var { declared, .. } => {
            let stats = declarations(alloc, sites, declared.as_slice(), reading)?;
            Ok(plain(stats))
        }
        Stat5::FunctionDeclaration(function) => {
            declared_function(alloc, sites, function.get(), reading)
        }
        Stat5::Block(block) => {
            let stats = body(alloc, sites, block.statements.as_slice(), reading)?;
            Ok(plain(stats))
        }
        Stat5::Empty { .. } | Stat5::Debugger { .. } => Ok(plain(Items::new(alloc))),
        Stat5::Expression { expression, .. } => {
            let value = expr(alloc, sites, expression, reading)?;
            single(alloc, CoreStat::Do(value))
        }
        Stat5::If {
            first,
            more,
            otherwise: other,
            ..
        } => {
            let first = condition(alloc, sites, first, reading)?;
            let cases = alone(alloc, first)?;
            let cases = conditions(alloc, sites, more.as_slice(), cases, reading)?;
            with_otherwise(alloc, sites, other, cases, reading)
        }
        Stat5::DoWhile { body, test, .. } => {
            let turn = reading.first_turn()?;
            let body = under(alloc, sites, body.get(), reading)?;
            turned(alloc, sites, test, turn, body, reading)
        }
        Stat5::While { test, body, .. } => {
            let test = expr(alloc, sites, test, reading)?;
            looped(
                alloc,
                sites,
                body.get(),
                Items::new(alloc),
                Some(test),
                None,
                reading,
            )
        }
        Stat5::For {
            first,
            test,
            update,
            body,
            ..
        } => {
            let first = for_first(alloc, sites, first, reading)?;
            let test = optional(alloc, sites, test, reading)?;
            let update = optional(alloc, sites, update, reading)?;
            looped(alloc, sites, body.get(), first, test, update, reading)
        }
        Stat5::Continue { label, .. } => reading.jumped(alloc, true, label),
        Stat5::Break { label, .. } => reading.jumped(alloc, false, label),
        Stat5::Return { value, .. } => {
            let value = optional(alloc, sites, value, reading)?;
            single(alloc, returned(alloc, value))
        }
        Stat5::Switch {
            subject,
            cases: list,
            ..
        } => {
            let subject = expr(alloc, sites, subject, reading)?;
            let cases = cases(alloc, sites, list.as_slice(), reading)?;
            single(alloc, CoreStat::Switch { subject, cases })
        }
        Stat5::Labelled { label, body, .. } => {
            let label = reading.label_named(label.name.bytes())?;
            let read = stat(alloc, sites, body.get(), reading)?;
            labelled(alloc, label, read)
        }
        Stat5::Throw { value, .. } => {
            let value = expr(alloc, sites, value, reading)?;
            single(alloc, CoreStat::Throw(value))
        }
        Stat5::Try {
            block,
            catch,
            finally,
            ..
        } => {
            let stats = body(alloc, sites, block.statements.as_slice(), reading)?;
            let stats = caught(alloc, sites, catch, stats, reading)?;
            ended(alloc, sites, finally, stats, reading)
        }
    }
}

/// A declaration of a function (13), which is there from the start of the function round it on.
#[cycle(walk)]
fn declared_function<'a>(
    alloc: Global,
    sites: Sites,
    source: &'a Function5,
    reading: &mut Gathered<'a>,
) -> Result<StatRead, AllocError>
    ensures { Gathers result reading.new (declared_function (whole_read sites source.now) (whole_read sites source.now).name reading.old) }
{
    match &source.name {
        None => Ok(plain(Items::new(alloc))),
        Some(name) => declared_as(alloc, sites, source, name, reading),
    }
}

/// A declaration of a function, by its name.
#[cycle(walk)]
fn declared_as<'a>(
    alloc: Global,
    sites: Sites,
    source: &'a Function5,
    name: &'a Identifier5,
    reading: &mut Gathered<'a>,
) -> Result<StatRead, AllocError>
    ensures { Gathers result reading.new (declared_function (whole_read sites source.now) (Some name.now.name) reading.old) }
{
    let var = reading.named(name.name.bytes())?;
    let made = function(alloc, sites, source, false, reading)?;
    reading.declared_function(alloc, var, made)
}

/// 12.5
#[cycle(walk)]
fn condition<'a>(
    alloc: Global,
    sites: Sites,
    source: &'a Condition5,
    reading: &mut Gathered<'a>,
) -> Result<CoreCase, AllocError>
    ensures { Gathers result reading.new (condition_read sites source.now reading.old) }
{
    let test = expr(alloc, sites, &source.test, reading)?;
    let body = under(alloc, sites, source.body.get(), reading)?;
    Ok(case_with(Some(test), body))
}

/// The further cases of an if statement, behind those that are done.
#[cycle(walk)]
fn conditions<'a>(
    alloc: Global,
    sites: Sites,
    source: &'a [Condition5],
    cases: Items<CoreCase>,
    reading: &mut Gathered<'a>,
) -> Result<Items<CoreCase>, AllocError>
    ensures { Gathers result reading.new (reads_onto cases (map (condition_read sites) source.now) reading.old) }
{
    let mut made = cases;
    for one in source {
        made.push(condition(alloc, sites, one, reading)?)?;
    }
    Ok(made)
}

/// The clause of `else` (12.5).
#[cycle(walk)]
fn otherwise<'a>(
    alloc: Global,
    sites: Sites,
    source: &'a Option<Boxed<Stat5>>,
    reading: &mut Gathered<'a>,
    out: &mut Items<CoreCase>,
) -> Result<(), AllocError>
    ensures { OnOk result (gives out.new reading.new ≡ reads_one (perhaps_stats (option_map (stat_read sites) source.now)) (λ body. out.old ++ otherwise body) reading.old) }
{
    match source {
        None => push_otherwise(None, out),
        Some(source) => {
            let body = under(alloc, sites, source.get(), reading)?;
            push_otherwise(Some(body), out)
        }
    }
}

/// The clause of `else`, behind the cases of an if statement.
#[cycle(walk)]
fn with_otherwise<'a>(
    alloc: Global,
    sites: Sites,
    source: &'a Option<Boxed<Stat5>>,
    cases: Items<CoreCase>,
    reading: &mut Gathered<'a>,
) -> Result<StatRead, AllocError>
    ensures { Gathers result reading.new (reads_one (perhaps_stats (option_map (stat_read sites) source.now)) (if_stat cases) reading.old) }
{
    let mut cases = cases;
    otherwise(alloc, sites, source, reading, &mut cases)?;
    single(alloc, CoreStat::If { cases })
}

/// 12.11
#[cycle(walk)]
fn case<'a>(
    alloc: Global,
    sites: Sites,
    source: &'a Case5,
    reading: &mut Gathered<'a>,
) -> Result<CoreCase, AllocError>
    ensures { Gathers result reading.new (case_read sites source.now reading.old) }
{
    let test = optional(alloc, sites, &source.test, reading)?;
    let body = body(alloc, sites, source.body.as_slice(), reading)?;
    Ok(case_with(test, body))
}

#[cycle(walk)]
fn cases<'a>(
    alloc: Global,
    sites: Sites,
    source: &'a [Case5],
    reading: &mut Gathered<'a>,
) -> Result<Items<CoreCase>, AllocError>
    ensures { Gathers result reading.new (reads_each (map (case_read sites) source.now) reading.old) }
{
    let mut made = Items::new(alloc);
    for one in source {
        made.push(case(alloc, sites, one, reading)?)?;
    }
    Ok(made)
}

/// Statements, and that which initializes a variable more (12.2).
#[cycle(walk)]
fn declaration<'a>(
    alloc: Global,
    sites: Sites,
    source: &'a Declared5,
    before: Items<CoreStat>,
    reading: &mut Gathered<'a>,
) -> Result<Items<CoreStat>, AllocError>
    ensures { Gathers result reading.new (reads_one (declared_read sites source.now) (λ stats. before ++ stats) reading.old) }
{
    let var = reading.variable_named(source.name.name.bytes())?;
    initialized(alloc, sites, &source.init, var, before, reading)
}

/// Statements, and that which initializes this variable, if it has a value.
#[cycle(walk)]
fn initialized<'a>(
    alloc: Global,
    sites: Sites,
    source: &'a Option<Expr5>,
    var: Var,
    before: Items<CoreStat>,
    reading: &mut Gathered<'a>,
) -> Result<Items<CoreStat>, AllocError>
    ensures { Gathers result reading.new (reads_one (reads_perhaps (option_map (expr_read sites) source.now)) (λ value. before ++ declared_with var value) reading.old) }
{
    let value = optional(alloc, sites, source, reading)?;
    let mut stats = before;
    push_declared(alloc, var, value, &mut stats)?;
    Ok(stats)
}

#[cycle(walk)]
fn declarations<'a>(
    alloc: Global,
    sites: Sites,
    source: &'a [Declared5],
    reading: &mut Gathered<'a>,
) -> Result<Items<CoreStat>, AllocError>
    ensures { Gathers result reading.new (joined (map (declared_read sites) source.now) reading.old) }
{
    let mut made = Items::new(alloc);
    for one in source {
        made = declaration(alloc, sites, one, made, reading)?;
    }
    Ok(made)
}

/// What a for statement begins with (12.6.3).
#[cycle(walk)]
fn for_first<'a>(
    alloc: Global,
    sites: Sites,
    source: &'a ForFirst5,
    reading: &mut Gathered<'a>,
) -> Result<Items<CoreStat>, AllocError>
    ensures { Gathers result reading.new (for_first_read sites source.now reading.old) }
{
    match source {
        ForFirst5::NoFirst => Ok(Items::new(alloc)),
        ForFirst5::FirstVar(list) => declarations(alloc, sites, list.as_slice(), reading),
        ForFirst5::FirstExpression(source) => {
            let value = expr(alloc, sites, source, reading)?;
            alone(alloc, CoreStat::Do(value))
        }
    }
}

/// A do-while behind its body (12.6.1).
#[cycle(walk)]
fn turned<'a>(
    alloc: Global,
    sites: Sites,
    source: &'a Expr5,
    turn: Var,
    body: Items<CoreStat>,
    reading: &mut Gathered<'a>,
) -> Result<StatRead, AllocError>
    ensures { Gathers result reading.new (reads_one (expr_read sites source.now) (λ test. looping (do_while turn body test)) reading.old) }
{
    let test = expr(alloc, sites, source, reading)?;
    do_while(alloc, turn, body, test)
}

/// A loop, of which only the body is left (12.6).
#[cycle(walk)]
fn looped<'a>(
    alloc: Global,
    sites: Sites,
    source: &'a Stat5,
    first: Items<CoreStat>,
    test: Option<CoreExpr>,
    update: Option<CoreExpr>,
    reading: &mut Gathered<'a>,
) -> Result<StatRead, AllocError>
    ensures { Gathers result reading.new (reads_one (stats_of (stat_read sites source.now)) (for_loop first test update) reading.old) }
{
    let body = under(alloc, sites, source, reading)?;
    for_loop(alloc, first, test, update, body)
}

/// The catch of a try statement, if it has one (12.14).
#[cycle(walk)]
fn caught<'a>(
    alloc: Global,
    sites: Sites,
    source: &'a Option<Catch5>,
    block: Items<CoreStat>,
    reading: &mut Gathered<'a>,
) -> Result<Items<CoreStat>, AllocError>
    ensures { Gathers result reading.new (reads_one (reads_perhaps (option_map (catch_read sites) source.now)) (caught block) reading.old) }
{
    match source {
        None => Ok(block),
        Some(source) => {
            let parameter = reading.named(source.parameter.name.bytes())?;
            let statements = source.body.statements.as_slice();
            let handler = body(alloc, sites, statements, reading)?;
            let names = Items::new(alloc);
            alone(
                alloc,
                CoreStat::TryCatch {
                    block,
                    parameter,
                    names,
                    handler,
                },
            )
        }
    }
}

/// The finally of a try statement, if it has one (12.14).
#[cycle(walk)]
fn ended<'a>(
    alloc: Global,
    sites: Sites,
    source: &'a Option<Block5>,
    block: Items<CoreStat>,
    reading: &mut Gathered<'a>,
) -> Result<StatRead, AllocError>
    ensures { Gathers result reading.new (reads_one (reads_perhaps (option_map (block_read sites) source.now)) (λ last. plain (ended block last)) reading.old) }
{
    match source {
        None => Ok(plain(block)),
        Some(source) => {
            let last = body(alloc, sites, source.statements.as_slice(), reading)?;
            single(alloc, CoreStat::TryFinally { block, last })
        }
    }
}
