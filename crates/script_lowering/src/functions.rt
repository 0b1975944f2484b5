//! Functions: what one begins with, and what is made of it (ECMA-262, 5.1 edition, 13).

ghost use Rattle.std.specs.Prelude.{◌≡◌, length, map, IfOk};
ghost use Rattle.script_lowering.specs.Gathering.{function_from, Gathers, head_read};
ghost use Rattle.script_lowering.specs.Reading.{named, reads_each};
ghost use Rattle.script_lowering.specs.Statements.{name_in, own_named};

use crate::gathered::Gathered;
use core_ast::{CoreFunction, CoreKind, CoreStat, Declared, Var};
use es5_ast::Identifier5;
use sqlite_items::Items;
use std::alloc::{AllocError, Global};

/// The names with which a function begins: its own, its parameters, and that of the arguments object.
#[derive(Drop)]
pub struct Head {
    pub own: Option<Var>,
    pub parameters: Items<Var>,
    pub arguments: Var,
}

/// What was declared so far round a function.
#[derive(Drop)]
pub struct Outside {
    pub vars: Items<Var>,
    pub declared: Items<Declared>,
}

/// The own name of a function, which that of a declaration is not.
fn own_named<'a>(
    is_expression: bool,
    name: &'a Option<Identifier5>,
    reading: &mut Gathered<'a>,
) -> Result<Option<Var>, AllocError>
    ensures { Gathers result reading.new (own_named is_expression (name_in name.now) reading.old) }
{
    match name {
        Some(name) if is_expression => Ok(Some(reading.named(name.name.bytes())?)),
        _ => Ok(None),
    }
}

fn parameters<'a>(
    alloc: Global,
    source: &'a [Identifier5],
    reading: &mut Gathered<'a>,
) -> Result<Items<Var>, AllocError>
    ensures { Gathers result reading.new (reads_each (map named (map (λ p. p.name) source.now)) reading.old) }
{
    let mut made = Items::new(alloc);
    for one in source {
        made.push(reading.named(one.name.bytes())?)?;
    }
    Ok(made)
}

/// The names with which a function begins.
pub(crate) fn function_head<'a>(
    alloc: Global,
    name: &'a Option<Identifier5>,
    source: &'a [Identifier5],
    is_expression: bool,
    reading: &mut Gathered<'a>,
) -> Result<Head, AllocError>
    ensures { Gathers result reading.new (head_read (name_in name.now) (map (λ p. p.name) source.now) is_expression reading.old) }
{
    let own = own_named(is_expression, name, reading)?;
    let parameters = parameters(alloc, source, reading)?;
    let arguments = reading.named(b"arguments")?;
    Ok(Head {
        own,
        parameters,
        arguments,
    })
}

/// A number that fits into 32 bits, as memory does.
pub(crate) fn number(count: usize) -> Result<u32, AllocError>
    ensures { IfOk result (λ n. n ≡ count) }
{
    match u32::try_from(count) {
        Ok(number) => Ok(number),
        Err(_) => Err(AllocError),
    }
}

/// A function of the table, by what it begins with, its body, and what is declared inside.
pub(crate) fn function(
    alloc: Global,
    head: Head,
    body: Items<CoreStat>,
    inside: Outside,
) -> Result<CoreFunction, AllocError>
    ensures { IfOk result (λ f. f ≡ function_from head body inside) }
{
    let length = number(head.parameters.len())?;
    let Head {
        own,
        parameters,
        arguments,
    } = head;
    let Outside { vars, declared } = inside;
    Ok(CoreFunction {
        kind: CoreKind::Plain,
        own,
        parameters,
        length,
        arguments: Some(arguments),
        cells: Items::new(alloc),
        locals: vars,
        declared,
        setup: Items::new(alloc),
        body,
        resumption: None,
        step: Items::new(alloc),
    })
}
