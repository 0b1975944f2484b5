//! A whole script (ECMA-262, 5.1 edition, 14).

ghost use Rattle.std.specs.Prelude.{◌≡◌, ◌∷◌, ◌++◌, [], map, IfOk, OnOk};
ghost use Rattle.script_lowering.specs.Reading.{Taken};
ghost use Rattle.script_lowering.specs.Scripts.{core_of, core_with, made_at_start, part_of, script_name};

use crate::gathered::Gathered;
use crate::makers::closure;
use crate::sites::Sites;
use crate::statements::alone;
use crate::walk::body;
use core_ast::{Core, CoreOp, CorePart, CoreStat, Declared, Fresh, ScopedName, Var, act, linked};
use es5_ast::Script;
use sqlite_items::Items;
use std::alloc::{AllocError, Global};

/// The core as which a script is read: one part, with the names that the script declares, whose functions are made before its
/// statements run. Functions stand in front of those that hold them, and names are numbered as they are met.
///
/// # Errors
///
/// Only want of memory, or of numbers of 32 bits.
pub fn core_of_script(alloc: Global, sites: Sites, script: &Script) -> Result<Core, AllocError>
    ensures { IfOk result (λ core. core ≡ core_of sites script.now) }
{
    let mut reading = Gathered::new(alloc);
    let stats = body(alloc, sites, script.statements.as_slice(), &mut reading)?;
    core(alloc, stats, reading)
}

/// The core of the statements of a script, and what is gathered then.
fn core(alloc: Global, stats: Items<CoreStat>, reading: Gathered) -> Result<Core, AllocError>
    ensures { IfOk result (λ core. core ≡ core_with (record { value = stats; after = reading.entry })) }
{
    let hints = reading.names.hints(alloc)?;
    let names = names(alloc, reading.declared.as_slice(), reading.vars.as_slice())?;
    let instantiate = instantiated(alloc, reading.declared.as_slice())?;
    let parts = alone(
        alloc,
        CorePart {
            names,
            instantiate,
            body: stats,
        },
    )?;
    let order = alone(alloc, 0)?;
    let Gathered {
        names: _,
        functions,
        vars: _,
        declared: _,
    } = reading;
    Ok(Core {
        functions,
        parts,
        order,
        fresh: Fresh { hints },
    })
}

fn script_name(var: Var) -> ScopedName
    ensures { result ≡ script_name var }
{
    ScopedName {
        var,
        shared: false,
        mutable: true,
    }
}

/// The names that a script declares: its functions, and then its variables.
fn names(
    alloc: Global,
    declared: &[Declared],
    vars: &[Var],
) -> Result<Items<ScopedName>, AllocError>
    ensures { IfOk result (λ names. names ≡ map (λ d. script_name d.var) declared.now ++ map script_name vars.now) }
{
    let mut made = Items::new(alloc);
    for one in declared {
        made.push(script_name(one.var))?;
    }
    for var in vars {
        made.push(script_name(*var))?;
    }
    Ok(made)
}

fn made_at_start(alloc: Global, declared: Declared) -> Result<CoreStat, AllocError>
    ensures { IfOk result (λ s. s ≡ made_at_start declared) }
{
    let made = closure(alloc, declared.function);
    let value = linked(made, act(alloc, CoreOp::Init(declared.var)))?;
    Ok(CoreStat::Do(value))
}

/// The statements by which the functions of a script are made.
fn instantiated(alloc: Global, declared: &[Declared]) -> Result<Items<CoreStat>, AllocError>
    ensures { IfOk result (λ stats. stats ≡ map made_at_start declared.now) }
{
    let mut made = Items::new(alloc);
    for one in declared {
        made.push(made_at_start(alloc, *one)?)?;
    }
    Ok(made)
}
