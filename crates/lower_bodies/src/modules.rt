//! The parts of modules (ECMA-262, 6th edition, 15.2).

ghost use Rattle.std.specs.Prelude.{◌≡◌, ◌++◌, map, IfOk, OnOk};
ghost use Rattle.lowering_rules.specs.statement_rules.Bodies.{default_exported, module_instantiated, part, started, temporary};

use crate::declarations::push_declared;
use crate::namespaces::push_namespaces;
use core_ast::{CoreExpr, CorePart, CoreStat, Primitive, ScopedName, Var};
use lower_parts::{initialize, primitive};
use lowering_rules::statement_rules::ModuleScope;
use sqlite_items::Items;
use std::alloc::{AllocError, Global};

/// `export default` of an expression: its variable is initialized.
pub fn lower_default(alloc: Global, var: Var, value: CoreExpr) -> Result<CoreStat, AllocError>
    ensures { IfOk result (λ s. s ≡ default_exported var value) }
{
    initialize(alloc, var, value)
}

/// `includes` is put in place by the part of the entry.
fn push_started(alloc: Global, is_entry: bool, out: &mut Items<CoreStat>) -> Result<(), AllocError>
    ensures { OnOk result (out.new ≡ out.old ++ started is_entry) }
{
    if !is_entry {
        return Ok(());
    }
    out.push(CoreStat::Do(primitive(alloc, Primitive::IncludesPut)))
}

fn instantiation(
    alloc: Global,
    is_entry: bool,
    scope: &ModuleScope,
) -> Result<Items<CoreStat>, AllocError>
    ensures { IfOk result (λ ss. ss ≡ module_instantiated is_entry scope.now) }
{
    let mut out = Items::new(alloc);
    push_started(alloc, is_entry, &mut out)?;
    push_declared(
        alloc,
        scope.lexical.as_slice(),
        scope.functions.as_slice(),
        &mut out,
    )?;
    push_namespaces(alloc, scope.namespaces.as_slice(), &mut out)?;
    Ok(out)
}

fn push_temporaries(temporaries: &[Var], names: &mut Items<ScopedName>) -> Result<(), AllocError>
    ensures { OnOk result (names.new ≡ names.old ++ map temporary temporaries.now) }
{
    for var in temporaries {
        names.push(ScopedName {
            var: *var,
            shared: false,
            mutable: true,
        })?;
    }
    Ok(())
}

/// The part of a module: its names and temporaries, what is there before any module runs, and its statements.
pub fn lower_part(
    alloc: Global,
    is_entry: bool,
    scope: ModuleScope,
    statements: Items<CoreStat>,
    temporaries: &[Var],
) -> Result<CorePart, AllocError>
    ensures { IfOk result (λ p. p ≡ part is_entry scope statements temporaries.now) }
{
    let instantiate = instantiation(alloc, is_entry, &scope)?;
    let ModuleScope { names, .. } = scope;
    let mut names = names;
    push_temporaries(temporaries, &mut names)?;
    Ok(CorePart {
        names,
        instantiate,
        body: statements,
    })
}
