//! What the items of a module declare (ECMA-262, 6th edition, 15.2.1.11, 15.2.1.12).

ghost use Rattle.std.specs.Prelude.{◌≡◌};
ghost use Rattle.std.specs.Option.{option_copied};
ghost use Rattle.es6_ast.specs.declared.tree.Function.{out-Function};
ghost use Rattle.es6_ast.specs.declared.tree.Class.{out-Class};
ghost use Rattle.es6_ast.specs.declared.tree.Statement.{out-Statement};
ghost use Rattle.source_meaning.specs.Modules.{default_declared, default_functions, default_names, function_name, item_functions, item_statements, name_or_default};
ghost use Rattle.source_meaning.specs.Trees.{function_in, functions_in, optional_name};
ghost use Rattle.source_modules.specs.Ones.{IsOnly};

use es6_ast::{Class, DefaultExport, Function, Identifier, Item, Statement};
use source_state::BorrowedName;

/// The statement that an item is.
pub(crate) fn item_statement<'a>(item: &'a Item) -> Option<&'a Statement>
    ensures { IsOnly (option_copied result) (item_statements item.now) }
{
    match item {
        Item::Statement(statement) => Some(statement),
        Item::ExportDeclaration { declaration, .. } => Some(declaration),
        _ => None,
    }
}

/// The name, or that of a default export which has none.
fn name_or_default<'a>(name: &'a Option<Identifier>) -> BorrowedName<'a>
    ensures { result ≡ name_or_default (optional_name name.now) }
{
    match name {
        None => BorrowedName::of(b"*default*"),
        Some(name) => BorrowedName::of(name.name.bytes()),
    }
}

pub(crate) fn function_name<'a>(function: &'a Function) -> BorrowedName<'a>
    ensures { result ≡ function_name function.now }
{
    name_or_default(&function.name)
}

fn class_name<'a>(class: &'a Class) -> BorrowedName<'a>
    ensures { result ≡ name_or_default (optional_name (out-Class class.now).name) }
{
    name_or_default(&class.name)
}

fn default_declared<'a>(value: &'a DefaultExport) -> BorrowedName<'a>
    ensures { result ≡ default_declared value.now }
{
    match value {
        DefaultExport::DefaultFunction(function) => function_name(function.get()),
        DefaultExport::DefaultClass(class) => class_name(class.get()),
        DefaultExport::DefaultValue(_) => BorrowedName::of(b"*default*"),
    }
}

/// The name that a default export declares.
pub(crate) fn default_name<'a>(item: &'a Item) -> Option<BorrowedName<'a>>
    ensures { IsOnly result (default_names item.now) }
{
    match item {
        Item::ExportDefault { value, .. } => Some(default_declared(value)),
        _ => None,
    }
}

/// The function that a statement declares.
pub(crate) fn function_in<'a>(statement: &'a Statement) -> Option<&'a Function>
    ensures { IsOnly (option_copied result) (function_in (out-Statement statement.now)) }
{
    match statement {
        Statement::FunctionDeclaration(function) => Some(function.get()),
        _ => None,
    }
}

fn default_function<'a>(value: &'a DefaultExport) -> Option<&'a Function>
    ensures { IsOnly (option_copied result) (default_functions value.now) }
{
    match value {
        DefaultExport::DefaultFunction(function) => Some(function.get()),
        _ => None,
    }
}

/// The function that an item declares among its statements.
pub(crate) fn statement_function<'a>(item: &'a Item) -> Option<&'a Function>
    ensures { IsOnly (option_copied result) (functions_in (item_statements item.now)) }
{
    match item_statement(item) {
        None => None,
        Some(statement) => function_in(statement),
    }
}

/// The function that an item makes at instantiation.
pub(crate) fn item_function<'a>(item: &'a Item) -> Option<&'a Function>
    ensures { IsOnly (option_copied result) (item_functions item.now) }
{
    match item {
        Item::ExportDefault { value, .. } => default_function(value),
        _ => statement_function(item),
    }
}
