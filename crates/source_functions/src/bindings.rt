//! The names that a call begins with (ECMA-262, 6th edition, 9.2.12).

ghost use Rattle.std.specs.Prelude.{◌≡◌, ◌++◌, ◌∷◌, [], IfOk, OnOk, codes, false, if◌then◌else◌, map, not};
ghost use Rattle.std.specs.List.{filter};
ghost use Rattle.std.specs.Option.{option_copied};
ghost use Rattle.es_heap.specs.Heaps.{next_id};
ghost use Rattle.es_value.specs.declared.value.Value.TheVariants as value;
ghost use Rattle.es6_ast.specs.declared.tree.Function.{out-Function};
ghost use Rattle.source_functions.specs.Taken.{value_or_undefined};
ghost use Rattle.source_meaning.specs.Environments.{bound};
ghost use Rattle.source_meaning.specs.Functions.{arguments_binding, body_bindings, body_variables, first_bindings, has_arguments, parameter_bindings, parameters_of, passed, statements_of, undefined_binding, with_arguments};
ghost use Rattle.source_meaning.specs.Trees.{has_name, have_expression, mentions_arguments, parameters_names};
ghost use Rattle.source_moves.specs.Seen.{state_of};

use crate::code::{are_simple, have_expression, parameters_names, statements_of};
use es_calls::make_arguments;
use es_heap::Heap;
use es_realm::Edition;
use es_value::{ObjId, Value};
use es6_ast::Function;
use source_moves::PendingWork;
use source_state::{Binding, BorrowedName, Code, Held, Node, State, Statements};
use source_trees::{
    add_unbound, function_names, functions_in, has_name, lexical_bindings, mentions_arguments,
    variables_in,
};
use sqlite_items::Items;
use std::alloc::{AllocError, Global};

pub(crate) fn bound<'a>(mutable: bool, name: BorrowedName<'a>, value: Value) -> Binding<'a>
    ensures { result ≡ bound mutable name.entry value }
{
    Binding {
        name,
        mutable,
        held: Held::Holds(value),
    }
}

fn value_or_undefined(value: Option<&Value>) -> Result<Value, AllocError>
    ensures { IfOk result (λ shared. shared ≡ value_or_undefined (option_copied value.entry)) }
{
    match value {
        None => Ok(Value::Undefined),
        Some(value) => value.share(),
    }
}

/// Parameters that are names alone have their values at once (steps 24 to 26).
#[tactic(auto, using(crate::proofs::Passed::passed_step))]
fn passed<'a>(
    alloc: Global,
    names: &[BorrowedName<'a>],
    args: &[Value],
) -> Result<Items<Binding<'a>>, AllocError>
    ensures { IfOk result (λ bindings. bindings ≡ passed names.now args.now) }
{
    let mut bindings = Items::new(alloc);
    for at in 0..names.len() {
        let value = value_or_undefined(args.get(at))?;
        bindings.push(bound(true, names[at].share(), value))?;
    }
    Ok(bindings)
}

#[tactic(auto, using(crate::proofs::Passed::unbound_listed))]
fn parameter_bindings<'a>(
    alloc: Global,
    code: &Code<'a>,
    args: &[Value],
) -> Result<Items<Binding<'a>>, AllocError>
    ensures { IfOk result (λ bindings. bindings ≡ parameter_bindings (parameters_of code.now) args.now) }
{
    let names = parameters_names(alloc, code)?;
    if are_simple(code) {
        return passed(alloc, names.as_slice(), args);
    }
    let mut bindings = Items::new(alloc);
    add_unbound(&mut bindings, true, names.as_slice())?;
    Ok(bindings)
}

pub(crate) fn undefined_binding<'a>(name: BorrowedName<'a>) -> Binding<'a>
    ensures { result ≡ undefined_binding name.entry }
{
    bound(true, name, Value::Undefined)
}

/// VarNames (14.1.17): functions of the body are among them.
pub(crate) fn body_variables<'a>(
    alloc: Global,
    statements: &Statements<'a>,
) -> Result<Items<BorrowedName<'a>>, AllocError>
    ensures { IfOk result (λ names. names ≡ body_variables statements.now) }
{
    let mut names = variables_in(alloc, statements)?;
    let functions = functions_in(alloc, statements)?;
    names.append(function_names(alloc, functions.as_slice())?)?;
    Ok(names)
}

/// Adds those of these names that are no parameters, as undefined.
fn add_undefined<'a>(
    bindings: &mut Items<Binding<'a>>,
    parameters: &[BorrowedName<'a>],
    names: &[BorrowedName<'a>],
) -> Result<(), AllocError>
    ensures { OnOk result (bindings.new ≡ bindings.old ++ map undefined_binding (filter (λ x. not (has_name parameters.now x)) names.now)) }
{
    for name in names {
        if !has_name(parameters, name.bytes()) {
            bindings.push(undefined_binding(name.share()))?;
        }
    }
    Ok(())
}

/// In strict code the names of the body stand in one record (steps 27 to 34), those that are parameters aside.
fn body_bindings<'a>(
    alloc: Global,
    parameters: &[BorrowedName<'a>],
    statements: &Statements<'a>,
) -> Result<Items<Binding<'a>>, AllocError>
    ensures { IfOk result (λ bindings. bindings ≡ body_bindings parameters.now statements.now) }
{
    let mut bindings = Items::new(alloc);
    let variables = body_variables(alloc, statements)?;
    add_undefined(&mut bindings, parameters, variables.as_slice())?;
    bindings.append(lexical_bindings(alloc, statements)?)?;
    Ok(bindings)
}

/// Adds the names of the body, unless they have a record of their own (step 28).
fn add_body<'a>(
    alloc: Global,
    bindings: &mut Items<Binding<'a>>,
    code: &Code<'a>,
) -> Result<(), AllocError>
    ensures { OnOk result (bindings.new ≡ bindings.old ++ (if have_expression (parameters_of code.now) then [] else body_bindings (parameters_names (parameters_of code.now)) (statements_of code.now))) }
{
    if have_expression(code) {
        return Ok(());
    }
    let parameters = parameters_names(alloc, code)?;
    bindings.append(body_bindings(alloc, parameters.as_slice(), &statements_of(code))?)
}

/// Whether a function mentions `arguments`.
fn mentions_own<'a>(alloc: Global, function: &Node<'a, Function>) -> Result<bool, AllocError>
    ensures { IfOk result (λ told. told ≡ mentions_arguments (out-Function function.now).parameters (out-Function function.now).body) }
{
    let function = function.get();
    let body = Statements::of(&function.body);
    mentions_arguments(alloc, function.parameters.as_slice(), &body)
}

/// Every function but an arrow has `arguments` (steps 15 to 22); it is made where it is mentioned, since nothing else can tell.
fn has_arguments<'a>(alloc: Global, code: &Code<'a>) -> Result<bool, AllocError>
    ensures { IfOk result (λ has. has ≡ has_arguments code.now) }
{
    match code {
        Code::PlainCode(function) | Code::MethodCode(function) => mentions_own(alloc, function),
        Code::ConstructorCode(_, Some(function)) => mentions_own(alloc, function),
        Code::ConstructorCode(_, None) | Code::ArrowCode(_) => Ok(false),
    }
}

/// The name `arguments`, of the object that is made next.
fn arguments_bound<'a>(heap: &Heap) -> Binding<'a>
    ensures { result ≡ bound false (codes "arguments") (value.Object (next_id heap.now)) }
{
    let object = ObjId(heap.len());
    let name = BorrowedName::of(b"arguments".as_slice());
    bound(false, name, Value::Object(object))
}

/// Adds the name `arguments`, where it is mentioned.
fn add_arguments<'a>(
    alloc: Global,
    bindings: &mut Items<Binding<'a>>,
    code: &Code<'a>,
    heap: &Heap,
) -> Result<(), AllocError>
    ensures { OnOk result (bindings.new ≡ bindings.old ++ arguments_binding code.now heap.now) }
{
    if !has_arguments(alloc, code)? {
        return Ok(());
    }
    bindings.push(arguments_bound(heap))
}

/// The names of a call's first record.
pub fn first_bindings<'a>(
    alloc: Global,
    code: &Code<'a>,
    args: &[Value],
    heap: &Heap,
) -> Result<Items<Binding<'a>>, AllocError>
    ensures { IfOk result (λ bindings. bindings ≡ first_bindings code.now args.now heap.now) }
{
    let mut bindings = parameter_bindings(alloc, code, args)?;
    add_arguments(alloc, &mut bindings, code, heap)?;
    add_body(alloc, &mut bindings, code)?;
    Ok(bindings)
}

/// The arguments object is made, where it is mentioned.
pub fn with_arguments<'a, W: PendingWork<'a>>(
    alloc: Global,
    code: &Code<'a>,
    args: &[Value],
    st: &mut State<'a, W>,
) -> Result<(), AllocError>
    ensures { OnOk result (state_of W.seen st.new ≡ with_arguments code.now args.now (state_of W.seen st.old)) }
{
    if has_arguments(alloc, code)? {
        make_arguments(alloc, Edition::Sixth, &mut st.heap, args)?;
    }
    Ok(())
}
