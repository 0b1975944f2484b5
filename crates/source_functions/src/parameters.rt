//! Parameters one by one (ECMA-262, 6th edition, 9.2.12, step 25; 14.1.18).

ghost use Rattle.std.specs.Prelude.{◌≡◌, Some};
ghost use Rattle.es6_ast.specs.declared.tree.Argument.TheOpen as layer;
ghost use Rattle.es6_ast.specs.declared.tree.Parameter.{out-Parameter};
ghost use Rattle.source_meaning.specs.Functions.{behind_first, default_taken, first_of, is_undefined, one_parameter, parameter_matched};
ghost use Rattle.source_moves.specs.Moves.{Steps};
ghost use Rattle.source_moves.specs.Seen.{state_of};

use crate::work::FunctionWork;
use es_calls::make_list;
use es_text::Span;
use es_value::Value;
use es6_ast::{Expression, Parameter, Pattern};
use source_moves::{Move, Moved, begin, push};
use source_state::{Binds, Control, Node, Nodes, State};
use sqlite_items::Items;
use std::alloc::Global;

/// Takes the first value, or undefined where there is none.
#[tactic(auto, using(crate::proofs::Passed::first_taken, crate::proofs::Passed::rest_taken))]
fn take_first(values: &mut Items<Value>) -> Value
    ensures taken { result ≡ first_of values.old }
    ensures left { values.new ≡ behind_first values.old }
{
    if values.len() == 0 {
        Value::Undefined
    } else {
        values.remove(0)
    }
}

/// 13.3.3.6: undefined stands for the default.
fn is_undefined(value: &Value) -> bool
    ensures { result ≡ is_undefined value.now }
{
    matches!(value, Value::Undefined)
}

/// A parameter has its value, and is taken apart.
pub fn parameter_matched<'a, W: FunctionWork<'a>>(
    pattern: Node<'a, Pattern>,
    value: Value,
    parameters: Nodes<'a, Parameter>,
    values: Items<Value>,
    st: &mut State<'a, W>,
) -> Moved<'a>
    ensures { Steps W.seen result st.new (parameter_matched pattern.entry value parameters.entry values (state_of W.seen st.old)) }
{
    push(st, W::parameters_rest(parameters, values))?;
    Ok(Move::Goes(Control::Destructure(Binds::Initializes, pattern, value)))
}

/// A parameter with a default.
fn with_default<'a, W: FunctionWork<'a>>(
    pattern: Node<'a, Pattern>,
    default: Node<'a, Expression>,
    value: Value,
    parameters: Nodes<'a, Parameter>,
    values: Items<Value>,
    st: &mut State<'a, W>,
) -> Moved<'a>
    ensures { Steps W.seen result st.new (default_taken pattern.entry (Some default.entry) value parameters.entry values (state_of W.seen st.old)) }
{
    if is_undefined(&value) {
        let work = W::parameter_default(pattern, parameters, values);
        begin(work, default, st)
    } else {
        parameter_matched(pattern, value, parameters, values, st)
    }
}

/// A parameter that may have a default.
pub fn default_taken<'a, W: FunctionWork<'a>>(
    pattern: Node<'a, Pattern>,
    default: &'a Option<Expression>,
    value: Value,
    parameters: Nodes<'a, Parameter>,
    values: Items<Value>,
    st: &mut State<'a, W>,
) -> Moved<'a>
    ensures { Steps W.seen result st.new (default_taken pattern.entry default.now value parameters.entry values (state_of W.seen st.old)) }
{
    match default {
        None => parameter_matched(pattern, value, parameters, values, st),
        Some(default) => with_default(pattern, Node::of(default), value, parameters, values, st),
    }
}

/// A rest parameter has all values that are left.
fn rest_parameter<'a, W: FunctionWork<'a>>(
    alloc: Global,
    span: Span,
    pattern: &'a Pattern,
    parameters: Nodes<'a, Parameter>,
    values: &[Value],
    st: &mut State<'a, W>,
) -> Moved<'a>
    ensures { Steps W.seen result st.new (one_parameter parameters.entry values.now (state_of W.seen st.old) (layer.RestParameter span pattern.now)) }
{
    let id = make_list(alloc, &mut st.heap, values)?;
    let pattern = Node::of(pattern);
    parameter_matched(
        pattern,
        Value::Object(id),
        parameters,
        Items::new(alloc),
        st,
    )
}

/// The first of the parameters, with the values that are left.
pub fn one_parameter<'a, W: FunctionWork<'a>>(
    alloc: Global,
    parameter: &'a Parameter,
    parameters: Nodes<'a, Parameter>,
    values: Items<Value>,
    st: &mut State<'a, W>,
) -> Moved<'a>
    ensures { Steps W.seen result st.new (one_parameter parameters.entry values (state_of W.seen st.old) (out-Parameter parameter.now)) }
{
    match parameter {
        Parameter::SingleParameter(part) => {
            let mut values = values;
            let value = take_first(&mut values);
            let pattern = Node::of(&part.pattern);
            default_taken(pattern, &part.default, value, parameters, values, st)
        }
        Parameter::RestParameter { span, pattern } => {
            rest_parameter(alloc, *span, pattern, parameters, values.as_slice(), st)
        }
    }
}
