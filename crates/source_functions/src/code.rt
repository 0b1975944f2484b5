//! What a code is made of.

ghost use Rattle.std.specs.Prelude.{◌≡◌, IfOk, unwrap_or, []};
ghost use Rattle.std.specs.Option.{option_copied};
ghost use Rattle.es6_ast.specs.declared.tree.ArrowBody.{out-ArrowBody};
ghost use Rattle.source_meaning.specs.Functions.{block_statements, function_parameters, is_arrow, is_class, is_derived, is_generator, is_plain, parameters_of, statements_of};
ghost use Rattle.source_meaning.specs.Trees.{are_simple, expected_count, have_expression, parameters_names};

use es6_ast::{ArrowBody, Function, Parameter};
use source_state::{BorrowedName, Code, Node, Nodes, Statements};
use sqlite_items::Items;
use std::alloc::{AllocError, Global};

/// The parameters, if there is a function that could have some.
pub(crate) fn parameter_list<'a>(code: &Code<'a>) -> Option<&'a Items<Parameter>>
    ensures { unwrap_or (option_copied result) [] ≡ parameters_of code.now }
{
    match code {
        Code::PlainCode(function) | Code::MethodCode(function) => Some(&function.get().parameters),
        Code::ArrowCode(arrow) => Some(&arrow.get().parameters),
        Code::ConstructorCode(_, Some(function)) => Some(&function.get().parameters),
        Code::ConstructorCode(_, None) => None,
    }
}

/// The parameters of a code.
pub fn parameters_of<'a>(code: &Code<'a>) -> Nodes<'a, Parameter>
    ensures { result ≡ parameters_of code.now }
{
    if let Some(list) = parameter_list(code) {
        return Nodes::of(list);
    }
    Nodes::none()
}

/// IsSimpleParameterList (14.1.12).
pub fn are_simple<'a>(code: &Code<'a>) -> bool
    ensures { result ≡ are_simple (parameters_of code.now) }
{
    match parameter_list(code) {
        None => true,
        Some(list) => source_trees::are_simple(list.as_slice()),
    }
}

/// Whether an expression stands among the parameters (14.1.5).
pub(crate) fn have_expression<'a>(code: &Code<'a>) -> bool
    ensures { result ≡ have_expression (parameters_of code.now) }
{
    match parameter_list(code) {
        None => false,
        Some(list) => source_trees::have_expression(list.as_slice()),
    }
}

/// ExpectedArgumentCount (14.1.6).
pub(crate) fn expected_count<'a>(code: &Code<'a>) -> Result<u32, AllocError>
    ensures { IfOk result (λ count. count ≡ expected_count (parameters_of code.now)) }
{
    match parameter_list(code) {
        None => Ok(0),
        Some(list) => source_trees::expected_count(list.as_slice()),
    }
}

/// The names that the parameters bind.
pub(crate) fn parameters_names<'a>(
    alloc: Global,
    code: &Code<'a>,
) -> Result<Items<BorrowedName<'a>>, AllocError>
    ensures { IfOk result (λ names. names ≡ parameters_names (parameters_of code.now)) }
{
    match parameter_list(code) {
        None => Ok(Items::new(alloc)),
        Some(list) => source_trees::parameters_names(alloc, list.as_slice()),
    }
}

/// The `length` of a class, by its constructor.
pub fn constructor_count<'a>(constructor: &Option<Node<'a, Function>>) -> Result<u32, AllocError>
    ensures { IfOk result (λ count. count ≡ expected_count (function_parameters constructor.now)) }
{
    match constructor {
        None => Ok(0),
        Some(function) => source_trees::expected_count(function.get().parameters.as_slice()),
    }
}

/// No statement.
fn no_statements<'a>() -> Statements<'a>
    ensures { result ≡ [] }
{
    Statements::of_cases(Nodes::none())
}

/// The statements of an arrow's body.
fn block_statements<'a>(body: &'a ArrowBody) -> Statements<'a>
    ensures { result ≡ block_statements (out-ArrowBody body.now) }
{
    match body {
        ArrowBody::ValueBody(_) => no_statements(),
        ArrowBody::BlockBody(block) => Statements::of(&block.statements),
    }
}

/// The statements of a code.
pub fn statements_of<'a>(code: &Code<'a>) -> Statements<'a>
    ensures { result ≡ statements_of code.now }
{
    match code {
        Code::PlainCode(function) | Code::MethodCode(function) => {
            Statements::of(&function.get().body)
        }
        Code::ArrowCode(arrow) => block_statements(&arrow.get().body),
        Code::ConstructorCode(_, Some(function)) => Statements::of(&function.get().body),
        Code::ConstructorCode(_, None) => no_statements(),
    }
}

pub fn is_generator<'a>(code: &Code<'a>) -> bool
    ensures { result ≡ is_generator code.now }
{
    match code {
        Code::PlainCode(function) | Code::MethodCode(function) => function.get().is_generator,
        _ => false,
    }
}

pub fn is_arrow<'a>(code: &Code<'a>) -> bool
    ensures { result ≡ is_arrow code.now }
{
    matches!(code, Code::ArrowCode(_))
}

pub fn is_class<'a>(code: &Code<'a>) -> bool
    ensures { result ≡ is_class code.now }
{
    matches!(code, Code::ConstructorCode(_, _))
}

/// Whether it is the constructor of a class with a heritage.
pub fn is_derived<'a>(code: &Code<'a>) -> bool
    ensures { result ≡ is_derived code.now }
{
    match code {
        Code::ConstructorCode(derived, _) => *derived,
        _ => false,
    }
}

/// Whether it is a function that can be constructed, and no class.
pub(crate) fn is_plain<'a>(code: &Code<'a>) -> bool
    ensures { result ≡ is_plain code.now }
{
    matches!(code, Code::PlainCode(_))
}

/// The same code.
pub fn share_code<'a>(code: &Code<'a>) -> Code<'a>
    ensures { result ≡ code.now }
{
    match code {
        Code::PlainCode(function) => Code::PlainCode(function.share()),
        Code::MethodCode(function) => Code::MethodCode(function.share()),
        Code::ArrowCode(arrow) => Code::ArrowCode(arrow.share()),
        Code::ConstructorCode(derived, Some(function)) => {
            Code::ConstructorCode(*derived, Some(function.share()))
        }
        Code::ConstructorCode(derived, None) => Code::ConstructorCode(*derived, None),
    }
}
