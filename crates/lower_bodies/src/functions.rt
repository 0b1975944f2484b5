//! Functions (ECMA-262, 6th edition, 9.2).

ghost use Rattle.std.specs.Prelude.{◌≡◌, ◌++◌, IfOk, OnOk};
ghost use Rattle.lowering_rules.specs.statement_rules.Bodies.{begun, begun_with, kept, kept_all, instantiated, names_of, with_body, with_statements};

use crate::declarations::{push_declared, push_vars};
use core_ast::{CoreExpr, CoreFunction, CoreHead, CoreKind, CoreStat, Primitive, Var, expression};
use lower_parts::{initialize, primitive};
use lowering_rules::statement_rules::{BodyNames, Receiver};
use sqlite_items::Items;
use std::alloc::{AllocError, Global};

pub(crate) fn begun_with(
    alloc: Global,
    kind: CoreKind,
    arguments: Option<Var>,
    locals: Items<Var>,
    setup: Items<CoreStat>,
) -> CoreFunction
    ensures { result ≡ begun_with kind arguments locals setup }
{
    CoreFunction {
        kind,
        own: None,
        parameters: Items::new(alloc),
        length: 0,
        arguments,
        cells: Items::new(alloc),
        locals,
        declared: Items::new(alloc),
        setup,
        body: Items::new(alloc),
        resumption: None,
        step: Items::new(alloc),
    }
}

#[tactic(auto, unfolding(lowering_rules::specs::statement_rules::Bodies::kept))]
fn push_kept(
    alloc: Global,
    var: Option<Var>,
    value: CoreExpr,
    out: &mut Items<CoreStat>,
) -> Result<(), AllocError>
    ensures { OnOk result (out.new ≡ out.old ++ kept var value) }
{
    match var {
        Some(var) => out.push(initialize(alloc, var, value)?),
        None => Ok(()),
    }
}

#[tactic(auto, unfolding(lowering_rules::specs::statement_rules::Bodies::names_of))]
fn push_name(var: Option<Var>, out: &mut Items<Var>) -> Result<(), AllocError>
    ensures { OnOk result (out.new ≡ out.old ++ names_of var) }
{
    match var {
        Some(var) => out.push(var),
        None => Ok(()),
    }
}

fn kept_names(alloc: Global, receiver: Receiver) -> Result<Items<Var>, AllocError>
    ensures { IfOk result (λ xs. xs ≡ names_of receiver.this ++ names_of receiver.target) }
{
    let mut names = Items::new(alloc);
    push_name(receiver.this, &mut names)?;
    push_name(receiver.target, &mut names)?;
    Ok(names)
}

fn kept_values(alloc: Global, receiver: Receiver) -> Result<Items<CoreStat>, AllocError>
    ensures { IfOk result (λ ss. ss ≡ kept_all receiver) }
{
    let mut setup = Items::new(alloc);
    let this = expression(alloc, CoreHead::This);
    push_kept(alloc, receiver.this, this, &mut setup)?;
    let target = primitive(alloc, Primitive::NewTarget);
    push_kept(alloc, receiver.target, target, &mut setup)?;
    Ok(setup)
}

/// A function of this kind in which nothing is declared yet. What a generator's body reads of its call is kept first.
pub fn begun(alloc: Global, kind: CoreKind, receiver: Receiver) -> Result<CoreFunction, AllocError>
    ensures { IfOk result (λ f. f ≡ begun kind receiver) }
{
    let names = kept_names(alloc, receiver)?;
    let setup = kept_values(alloc, receiver)?;
    Ok(begun_with(alloc, kind, receiver.arguments, names, setup))
}

/// The function with what its body declares, behind its parameters.
fn instantiated(
    alloc: Global,
    names: BodyNames,
    function: CoreFunction,
) -> Result<CoreFunction, AllocError>
    ensures { IfOk result (λ f. f ≡ instantiated names function) }
{
    let BodyNames {
        variables,
        lexical,
        functions,
    } = names;
    let mut function = function;
    function.locals.append(variables)?;
    push_vars(lexical.as_slice(), &mut function.locals)?;
    push_declared(
        alloc,
        lexical.as_slice(),
        functions.as_slice(),
        &mut function.setup,
    )?;
    Ok(function)
}

pub(crate) fn with_statements(
    statements: Items<CoreStat>,
    temporaries: Items<Var>,
    function: CoreFunction,
) -> Result<CoreFunction, AllocError>
    ensures { IfOk result (λ f. f ≡ with_statements statements temporaries function) }
{
    let mut function = function;
    function.locals.append(temporaries)?;
    function.body.append(statements)?;
    Ok(function)
}

/// The function with its body, behind its parameters: what the body declares, its statements, and the temporaries of both.
pub fn lower_body(
    alloc: Global,
    names: BodyNames,
    statements: Items<CoreStat>,
    temporaries: Items<Var>,
    function: CoreFunction,
) -> Result<CoreFunction, AllocError>
    ensures { IfOk result (λ f. f ≡ with_body names statements temporaries function) }
{
    let function = instantiated(alloc, names, function)?;
    with_statements(statements, temporaries, function)
}
