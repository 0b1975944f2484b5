//! What stands behind the parameters of a call (ECMA-262, 6th edition, 9.2.12, steps 28 to 36): the functions of the body are made, and
//! then it runs.

ghost use Rattle.std.specs.Prelude.{◌≡◌, ◌++◌, IfOk, OnOk, map};
ghost use Rattle.std.specs.Option.{option_copied};
ghost use Rattle.es6_ast.specs.declared.tree.ArrowBody.{out-ArrowBody};
ghost use Rattle.source_meaning.specs.Environments.{binding_in, held_in, innermost, unbound};
ghost use Rattle.source_meaning.specs.Functions.{body_instantiated, body_variables, copied_binding, run_arrow, run_code, value_held, with_body_record};
ghost use Rattle.source_meaning.specs.Trees.{function_names, functions_in, lexicals_in};
ghost use Rattle.source_moves.specs.Moves.{Steps};
ghost use Rattle.source_moves.specs.Seen.{state_of};

use crate::bindings::{body_variables, bound, undefined_binding};
use crate::code::{have_expression, statements_of};
use crate::declared::with_functions;
use crate::work::FunctionWork;
use es_value::Value;
use es6_ast::ArrowBody;
use source_moves::{Move, Moved, PendingWork, begin, binding_at, enter_bindings};
use source_state::{Binding, BorrowedName, Code, Control, Held, Node, State, Statements};
use source_trees::{function_names, functions_in, has_name, last_ones, lexical_bindings};
use sqlite_items::Items;
use std::alloc::{AllocError, Global};

/// The value that a binding holds, or undefined.
fn value_held<'a>(binding: Option<&Binding<'a>>) -> Result<Value, AllocError>
    ensures { IfOk result (λ value. value ≡ value_held (held_in (option_copied binding.entry))) }
{
    match binding {
        Some(
            Binding {
                held: Held::Holds(value),
                ..
            },
        ) => value.share(),
        _ => Ok(Value::Undefined),
    }
}

/// What a name is bound to in the innermost record.
fn innermost_binding<'s, 'a, W: PendingWork<'a>>(
    st: &'s State<'a, W>,
    name: &[u8],
) -> Option<&'s Binding<'a>>
    ensures { option_copied result ≡ binding_in (innermost (state_of W.seen st.now) st.now.context.environment).bindings name.now }
{
    match st.context.environment.as_slice().split_last() {
        None => None,
        Some((number, _)) => binding_at(&st.records, *number, name),
    }
}

/// A name of the body that is a parameter's too begins with its value, unless it is a function (28.f).
fn copied_binding<'a, W: PendingWork<'a>>(
    functions: &[BorrowedName<'a>],
    name: &BorrowedName<'a>,
    st: &State<'a, W>,
) -> Result<Binding<'a>, AllocError>
    ensures { IfOk result (λ binding. binding ≡ copied_binding (state_of W.seen st.now) functions.now name.now) }
{
    if has_name(functions, name.bytes()) {
        return Ok(undefined_binding(name.share()));
    }
    let value = value_held(innermost_binding(st, name.bytes()))?;
    Ok(bound(true, name.share(), value))
}

fn copied_bindings<'a, W: PendingWork<'a>>(
    alloc: Global,
    functions: &[BorrowedName<'a>],
    names: &[BorrowedName<'a>],
    st: &State<'a, W>,
) -> Result<Items<Binding<'a>>, AllocError>
    ensures { IfOk result (λ bindings. bindings ≡ map (copied_binding (state_of W.seen st.now) functions.now) names.now) }
{
    let mut bindings = Items::new(alloc);
    for name in names {
        bindings.push(copied_binding(functions, name, st)?)?;
    }
    Ok(bindings)
}

/// The names of a body that has a record of its own.
fn body_record<'a, W: PendingWork<'a>>(
    alloc: Global,
    statements: &Statements<'a>,
    st: &State<'a, W>,
) -> Result<Items<Binding<'a>>, AllocError>
    ensures { IfOk result (λ bindings. bindings ≡ map (copied_binding (state_of W.seen st.now) (function_names (functions_in statements.now))) (body_variables statements.now) ++ map unbound (lexicals_in statements.now)) }
{
    let functions = functions_in(alloc, statements)?;
    let functions = function_names(alloc, functions.as_slice())?;
    let variables = body_variables(alloc, statements)?;
    let mut bindings = copied_bindings(alloc, functions.as_slice(), variables.as_slice(), st)?;
    bindings.append(lexical_bindings(alloc, statements)?)?;
    Ok(bindings)
}

/// Where an expression stands among the parameters, the names of the body have a record of their own (step 28).
pub fn with_body_record<'a, W: PendingWork<'a>>(
    alloc: Global,
    code: &Code<'a>,
    st: &mut State<'a, W>,
) -> Result<(), AllocError>
    ensures { OnOk result (state_of W.seen st.new ≡ with_body_record code.now (state_of W.seen st.old)) }
{
    if !have_expression(code) {
        return Ok(());
    }
    let bindings = body_record(alloc, &statements_of(code), st)?;
    enter_bindings(alloc, bindings, st)
}

/// The names of the body are there, and its functions are made.
pub fn body_instantiated<'a, W: PendingWork<'a>>(
    alloc: Global,
    code: &Code<'a>,
    st: &mut State<'a, W>,
) -> Result<(), AllocError>
    ensures { OnOk result (state_of W.seen st.new ≡ body_instantiated code.now (state_of W.seen st.old)) }
{
    with_body_record(alloc, code, st)?;
    let functions = functions_in(alloc, &statements_of(code))?;
    let functions = last_ones(alloc, functions.as_slice())?;
    with_functions(alloc, functions.as_slice(), st)
}

/// An arrow's body may be an expression (14.2.15).
fn run_arrow<'a, W: FunctionWork<'a>>(body: &'a ArrowBody, st: &mut State<'a, W>) -> Moved<'a>
    ensures { Steps W.seen result st.new (run_arrow (out-ArrowBody body.now) (state_of W.seen st.old)) }
{
    match body {
        ArrowBody::ValueBody(value) => begin(W::returning(), Node::of(value.get()), st),
        ArrowBody::BlockBody(block) => {
            Ok(Move::Goes(Control::Run(Statements::of(&block.statements))))
        }
    }
}

/// The body runs.
pub fn run_code<'a, W: FunctionWork<'a>>(code: &Code<'a>, st: &mut State<'a, W>) -> Moved<'a>
    ensures { Steps W.seen result st.new (run_code code.now (state_of W.seen st.old)) }
{
    match code {
        Code::ArrowCode(arrow) => run_arrow(&arrow.get().body, st),
        _ => Ok(Move::Goes(Control::Run(statements_of(code)))),
    }
}
