//! Lexically scoped declarations (ECMA-262, 6th edition, 13.2.6, 14.1.15), as the bindings that a record begins with: none of them has a
//! value yet.

ghost use Rattle.std.specs.Prelude.{◌≡◌, ◌++◌, map, true, IfOk, OnOk};
ghost use Rattle.es6_ast.specs.declared.tree.Statement.{out-Statement};
ghost use Rattle.source_meaning.specs.Environments.{unbound};
ghost use Rattle.source_meaning.specs.Trees.{block_lexicals, declared_in, lexical, lexical_of, lexicals_in, named_once, optional_name, parts_names, pattern_names};

use crate::functions::{function_names, functions_in};
use crate::names::{parts_names, pattern_names};
use es6_ast::{Identifier, Part, Pattern, Statement, VariableKind};
use source_state::{Binding, BorrowedName, Held, Statements};
use sqlite_items::Items;
use std::alloc::{AllocError, Global};

fn unbound<'a>(mutable: bool, name: BorrowedName<'a>) -> Binding<'a>
    ensures { result ≡ unbound (lexical mutable name.entry) }
{
    Binding {
        name,
        mutable,
        held: Held::Uninitialized,
    }
}

/// Adds names without values.
pub fn add_unbound<'a>(
    bindings: &mut Items<Binding<'a>>,
    mutable: bool,
    names: &[BorrowedName<'a>],
) -> Result<(), AllocError>
    ensures { OnOk result (bindings.new ≡ bindings.old ++ map unbound (map (lexical mutable) names.now)) }
{
    for name in names {
        bindings.push(unbound(mutable, name.share()))?;
    }
    Ok(())
}

/// Adds the names of a declaration of this kind, if they are lexical.
fn add_of_kind<'a>(
    bindings: &mut Items<Binding<'a>>,
    kind: VariableKind,
    names: &[BorrowedName<'a>],
) -> Result<(), AllocError>
    ensures { OnOk result (bindings.new ≡ bindings.old ++ map unbound (lexical_of kind names.now)) }
{
    match kind {
        VariableKind::Var => Ok(()),
        VariableKind::Let => add_unbound(bindings, true, names),
        VariableKind::Const => add_unbound(bindings, false, names),
    }
}

/// The lexical names of declared variables.
pub fn parts_bindings<'a>(
    alloc: Global,
    kind: VariableKind,
    parts: &'a [Part],
) -> Result<Items<Binding<'a>>, AllocError>
    ensures { IfOk result (λ bindings. bindings ≡ map unbound (lexical_of kind (parts_names parts.now))) }
{
    let mut bindings = Items::new(alloc);
    let names = parts_names(alloc, parts)?;
    add_of_kind(&mut bindings, kind, names.as_slice())?;
    Ok(bindings)
}

/// The lexical names that a pattern binds; those of a catch clause are as `let` declares them.
pub fn pattern_bindings<'a>(
    alloc: Global,
    kind: VariableKind,
    pattern: &'a Pattern,
) -> Result<Items<Binding<'a>>, AllocError>
    ensures { IfOk result (λ bindings. bindings ≡ map unbound (lexical_of kind (pattern_names pattern.now))) }
{
    let mut bindings = Items::new(alloc);
    let names = pattern_names(alloc, pattern)?;
    add_of_kind(&mut bindings, kind, names.as_slice())?;
    Ok(bindings)
}

fn add_named<'a>(
    bindings: &mut Items<Binding<'a>>,
    name: &'a Option<Identifier>,
) -> Result<(), AllocError>
    ensures { OnOk result (bindings.new ≡ bindings.old ++ map unbound (named_once true name.now)) }
{
    match name {
        None => Ok(()),
        Some(name) => bindings.push(unbound(true, BorrowedName::of(name.name.bytes()))),
    }
}

/// Adds the lexical names that a statement declares, without that of a function.
pub fn add_lexicals<'a>(
    alloc: Global,
    bindings: &mut Items<Binding<'a>>,
    statement: &'a Statement,
) -> Result<(), AllocError>
    ensures { OnOk result (bindings.new ≡ bindings.old ++ map unbound (declared_in (out-Statement statement.now))) }
{
    match statement {
        Statement::Variables { kind, parts, .. } => {
            let names = parts_names(alloc, parts.as_slice())?;
            add_of_kind(bindings, *kind, names.as_slice())
        }
        Statement::ClassDeclaration(class) => add_named(bindings, &class.get().name),
        _ => Ok(()),
    }
}

/// The lexical names that statements declare, without those of functions.
#[tactic(auto, using(crate::proofs::Listed::lexicals_step))]
pub fn lexical_bindings<'a>(
    alloc: Global,
    statements: &Statements<'a>,
) -> Result<Items<Binding<'a>>, AllocError>
    ensures { IfOk result (λ bindings. bindings ≡ map unbound (lexicals_in statements.now)) }
{
    let mut bindings = Items::new(alloc);
    let mut rest = statements.share();
    'statements: while let Some((statement, behind)) = rest.first() {
        add_lexicals(alloc, &mut bindings, statement)?;
        rest = behind;
    }
    Ok(bindings)
}

/// The lexical names of a block, where those of functions are among them.
pub fn block_bindings<'a>(
    alloc: Global,
    statements: &Statements<'a>,
) -> Result<Items<Binding<'a>>, AllocError>
    ensures { IfOk result (λ bindings. bindings ≡ map unbound (block_lexicals statements.now)) }
{
    let mut bindings = lexical_bindings(alloc, statements)?;
    let functions = functions_in(alloc, statements)?;
    let names = function_names(alloc, functions.as_slice())?;
    add_unbound(&mut bindings, true, names.as_slice())?;
    Ok(bindings)
}
