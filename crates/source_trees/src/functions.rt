//! The functions that statements declare (ECMA-262, 6th edition, 9.2.12, 13.2.6, 14.1.15), lent.

ghost use Rattle.std.specs.Prelude.{◌≡◌, ◌++◌, [], ◌∷◌, IfOk, OnOk};
ghost use Rattle.std.specs.List.{list_any};
ghost use Rattle.es6_ast.specs.declared.tree.Statement.{out-Statement};
ghost use Rattle.source_meaning.specs.Trees.{function_in, function_names, functions_in, has_name, last_ones};
ghost use Rattle.source_trees.specs.Last.{unless_named};

use crate::names::has_name;
use es6_ast::{Function, Statement};
use source_state::{BorrowedName, Node, Statements};
use sqlite_items::Items;
use std::alloc::{AllocError, Global};

fn add_function<'a>(
    functions: &mut Items<Node<'a, Function>>,
    statement: &'a Statement,
) -> Result<(), AllocError>
    ensures { OnOk result (functions.new ≡ functions.old ++ function_in (out-Statement statement.now)) }
{
    match statement {
        Statement::FunctionDeclaration(function) => functions.push(Node::of(function.get())),
        _ => Ok(()),
    }
}

/// The functions that statements declare.
pub fn functions_in<'a>(
    alloc: Global,
    statements: &Statements<'a>,
) -> Result<Items<Node<'a, Function>>, AllocError>
    ensures { IfOk result (λ functions. functions ≡ functions_in statements.now) }
{
    let mut functions = Items::new(alloc);
    let mut rest = statements.share();
    'statements: while let Some((statement, behind)) = rest.first() {
        add_function(&mut functions, statement)?;
        rest = behind;
    }
    Ok(functions)
}

fn add_name<'a>(
    names: &mut Items<BorrowedName<'a>>,
    function: &Node<'a, Function>,
) -> Result<(), AllocError>
    ensures { OnOk result (names.new ≡ names.old ++ function_names (function.now ∷ [])) }
{
    match &function.get().name {
        None => Ok(()),
        Some(name) => names.push(BorrowedName::of(name.name.bytes())),
    }
}

/// The names of functions.
pub fn function_names<'a>(
    alloc: Global,
    functions: &[Node<'a, Function>],
) -> Result<Items<BorrowedName<'a>>, AllocError>
    ensures { IfOk result (λ names. names ≡ function_names functions.now) }
{
    let mut names = Items::new(alloc);
    for function in functions {
        add_name(&mut names, function)?;
    }
    Ok(names)
}

/// Whether one of these names is that of the function.
fn is_named<'a>(names: &[BorrowedName<'a>], function: &Node<'a, Function>) -> bool
    ensures { result ≡ list_any (has_name names.now) (function_names (function.now ∷ [])) }
{
    match &function.get().name {
        None => false,
        Some(name) => has_name(names, name.name.bytes()),
    }
}

/// Adds a function, unless a later one has its name.
fn add_unless_named<'a>(
    last: &mut Items<Node<'a, Function>>,
    later: &[BorrowedName<'a>],
    function: &Node<'a, Function>,
) -> Result<(), AllocError>
    ensures { OnOk result (last.new ≡ last.old ++ unless_named later.now function.now) }
{
    if is_named(later, function) {
        return Ok(());
    }
    last.push(function.share())
}

/// Of the functions of one name the last one counts (9.2.12, step 10).
#[tactic(auto, using(crate::proofs::Listed::last_step))]
pub fn last_ones<'a>(
    alloc: Global,
    functions: &[Node<'a, Function>],
) -> Result<Items<Node<'a, Function>>, AllocError>
    ensures { IfOk result (λ last. last ≡ last_ones functions.now) }
{
    let mut last = Items::new(alloc);
    for at in 0..functions.len() {
        let later = function_names(alloc, &functions[at + 1..])?;
        add_unless_named(&mut last, later.as_slice(), &functions[at])?;
    }
    Ok(last)
}
