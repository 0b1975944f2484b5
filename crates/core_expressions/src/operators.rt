//! Operators on values (ECMA-262, 6th edition, 12.4 to 12.11; 5.1 edition, 11.3 to 11.9).

ghost use Rattle.std.specs.Prelude.{◌≡◌, ◌∷◌, []};
ghost use Rattle.core_meaning.specs.Expressions.{binary_number, initialize, operate, operate_one, operator, sequence, set, step_name, step_value, stepped, with_current};
ghost use Rattle.core_meaning.specs.Rows.{hands, operates, pushed};
ghost use Rattle.core_moves.specs.Moves.{Steps};
ghost use Rattle.core_state.specs.declared.value.Completion.{Completion};
ghost use Rattle.core_state.specs.declared.value.CoreValue.{CoreValue};
ghost use Rattle.es_value.specs.declared.value.Value.TheVariants.{Bool as ValueBool};
ghost use Rattle.es_operation_steps.specs.Operations.{number_of};

use crate::names::{type_of_value, write};
use core_ast::{Binary, Unary, Update, Var};
use core_moves::{
    CoreRows, Move, Moved, StateOf, initialize as initialize_name, operate, push, share_value,
    single, single_user, unlawful, user_at,
};
use core_state::{Completion, CoreValue, Current, Frame, Links, Strict};
use es_operation_steps::Operation;
use es_operators::truth_of;
use es_value::{Exit, Value, add, same, sub};
use sqlite_items::Items;

/// The operation that an operator is, but for `===` and `!==`.
fn operation_of(binary: Binary) -> Operation
    ensures { number_of result ≡ binary_number binary }
{
    match binary {
        Binary::BitOr => Operation::Or,
        Binary::BitXor => Operation::ExclusiveOr,
        Binary::BitAnd => Operation::And,
        Binary::Equal => Operation::Equal,
        Binary::NotEqual => Operation::NotEqual,
        Binary::Less => Operation::Less,
        Binary::Greater => Operation::Greater,
        Binary::AtMost => Operation::AtMost,
        Binary::AtLeast => Operation::AtLeast,
        Binary::InstanceOf => Operation::InstanceOf,
        Binary::In => Operation::HasProperty,
        Binary::ShiftLeft => Operation::ShiftLeft,
        Binary::ShiftRight => Operation::ShiftRight,
        Binary::ShiftRightUnsigned => Operation::ShiftRightUnsigned,
        Binary::Subtract => Operation::Subtract,
        Binary::Multiply => Operation::Multiply,
        Binary::Divide => Operation::Divide,
        Binary::Remainder => Operation::Remainder,
        Binary::Add | Binary::Same | Binary::NotSame => Operation::Add,
    }
}

/// A truth value is handed to the frame (12.10).
fn compare<'a, R: CoreRows<'a>>(
    frame: Frame<'a, R::Mark, R::Work>,
    truth: bool,
    st: &mut StateOf<'a, R>,
) -> Moved<'a, R::Mark>
    ensures { Steps result st.new (hands (Completion.Gives (CoreValue.User (ValueBool truth))) (pushed frame.entry st.old)) }
{
    push(st, frame)?;
    Ok(Move::hand(Completion::Gives(CoreValue::User(Value::Bool(truth)))))
}

/// An operation on a value and one operand, whose result goes to the frame.
fn operate_on<'a, R: CoreRows<'a>>(
    rows: &R,
    frame: Frame<'a, R::Mark, R::Work>,
    operation: Operation,
    left: Value,
    right: Value,
    st: &mut StateOf<'a, R>,
) -> Moved<'a, R::Mark>
    ensures { Steps result st.new (operates frame.entry (number_of operation) left (right ∷ []) st.old) }
{
    let mut operands = Items::new(rows.alloc());
    operands.push(right)?;
    operate(rows.alloc(), frame, operation, left, operands, st)
}

/// An operation without operands, whose result goes to the frame.
fn convert<'a, R: CoreRows<'a>>(
    rows: &R,
    frame: Frame<'a, R::Mark, R::Work>,
    operation: Operation,
    value: Value,
    st: &mut StateOf<'a, R>,
) -> Moved<'a, R::Mark>
    ensures { Steps result st.new (operates frame.entry (number_of operation) value [] st.old) }
{
    let operands = Items::new(rows.alloc());
    operate(rows.alloc(), frame, operation, value, operands, st)
}

/// An operator on two values, whose result goes to the frame: `===` and `!==` convert nothing.
#[tactic(auto, unfolding(core_meaning::specs::Expressions::operate))]
pub fn operate_by<'a, R: CoreRows<'a>>(
    rows: &R,
    frame: Frame<'a, R::Mark, R::Work>,
    binary: Binary,
    left: Value,
    right: Value,
    st: &mut StateOf<'a, R>,
) -> Moved<'a, R::Mark>
    ensures { Steps result st.new (operate frame.entry binary left right st.old) }
{
    match binary {
        Binary::Same => compare::<R>(frame, same(&left, &right), st),
        Binary::NotSame => compare::<R>(frame, !same(&left, &right), st),
        _ => operate_on(rows, frame, operation_of(binary), left, right, st),
    }
}

/// An operator on one value (12.5).
#[tactic(auto, unfolding(core_meaning::specs::Expressions::operate_one))]
pub(crate) fn operate_one<'a, R: CoreRows<'a>>(
    rows: &R,
    links: Links<'a>,
    unary: Unary,
    value: Value,
    st: &mut StateOf<'a, R>,
) -> Moved<'a, R::Mark>
    ensures { Steps result st.new (operate_one links.entry unary value st.old) }
{
    match unary {
        Unary::Void => Ok(Move::has(Value::Undefined, links)),
        Unary::Typeof => type_of_value(rows, &value, links, st),
        Unary::Not => Ok(Move::has(Value::Bool(!truth_of(&value)), links)),
        Unary::Plus => convert(rows, Frame::After(links), Operation::ToNumber, value, st),
        Unary::Minus => convert(rows, Frame::After(links), Operation::Negate, value, st),
        Unary::BitNot => convert(rows, Frame::After(links), Operation::Invert, value, st),
    }
}

/// What `++` and `--` write, of the number before (12.4, 12.5.7 and 12.5.8).
pub fn stepped(update: Update, before: i64) -> Result<i64, Exit>
    ensures { result ≡ stepped update before }
{
    match update {
        Update::IncrementBefore | Update::IncrementAfter => add(before, 1),
        Update::DecrementBefore | Update::DecrementAfter => sub(before, 1),
    }
}

/// Which of the two numbers they give.
pub fn step_value(update: Update, before: i64, after: i64) -> Value
    ensures { result ≡ step_value update before after }
{
    match update {
        Update::IncrementBefore | Update::DecrementBefore => Value::Number(after),
        Update::IncrementAfter | Update::DecrementAfter => Value::Number(before),
    }
}

/// An operator on the current value and the part.
pub(crate) fn operator<'a, R: CoreRows<'a>>(
    rows: &R,
    binary: Binary,
    strict: Strict<'a, R::Mark>,
    st: &mut StateOf<'a, R>,
) -> Moved<'a, R::Mark>
    ensures { Steps result st.new (operator binary strict.entry st.old) }
{
    let Strict {
        current,
        values,
        links,
        ..
    } = strict;
    match (user_at(current), single_user(values)) {
        (Some(left), Some(right)) => {
            operate_by(rows, Frame::After(links), binary, left, right, st)
        }
        _ => unlawful(st),
    }
}

/// An operator on the current value alone.
pub(crate) fn unary<'a, R: CoreRows<'a>>(
    rows: &R,
    unary: Unary,
    strict: Strict<'a, R::Mark>,
    st: &mut StateOf<'a, R>,
) -> Moved<'a, R::Mark>
    ensures { Steps result st.new (with_current strict.entry.current st.old (λ v. operate_one strict.entry.links unary v st.old)) }
{
    match user_at(strict.current) {
        None => unlawful(st),
        Some(value) => operate_one(rows, strict.links, unary, value, st),
    }
}

/// `,` (12.15).
pub(crate) fn sequence<'a, R: CoreRows<'a>>(
    strict: Strict<'a, R::Mark>,
    st: &StateOf<'a, R>,
) -> Moved<'a, R::Mark>
    ensures { Steps result st.now (sequence strict.entry st.now) }
{
    match single(strict.values) {
        None => unlawful(st),
        Some(value) => Ok(Move::go(Current::Has(value), strict.links)),
    }
}

/// Writes the current value to a name.
pub(crate) fn set<'a, R: CoreRows<'a>>(
    rows: &R,
    var: Var,
    strict: Strict<'a, R::Mark>,
    st: &mut StateOf<'a, R>,
) -> Moved<'a, R::Mark>
    ensures { Steps result st.new (set (R.rows rows.now) var strict.entry st.old strict.entry.current) }
{
    let Strict { current, links, .. } = strict;
    match current {
        Current::Has(value) => {
            let given = share_value(rows, &value)?;
            write(rows, var, value, given, links, st)
        }
        _ => unlawful(st),
    }
}

/// Initializes a name with the current value.
pub(crate) fn initialize<'a, R: CoreRows<'a>>(
    rows: &R,
    var: Var,
    strict: Strict<'a, R::Mark>,
    st: &mut StateOf<'a, R>,
) -> Moved<'a, R::Mark>
    ensures { Steps result st.new (initialize var strict.entry st.old strict.entry.current) }
{
    let Strict { current, links, .. } = strict;
    match current {
        Current::Has(value) => {
            let given = share_value(rows, &value)?;
            initialize_name(rows.alloc(), var, value, st);
            Ok(Move::go(Current::Has(given), links))
        }
        _ => unlawful(st),
    }
}

/// `++` and `--` at a name: first the value becomes a number.
pub(crate) fn step_name<'a, R: CoreRows<'a>>(
    rows: &R,
    update: Update,
    var: Var,
    strict: Strict<'a, R::Mark>,
    st: &mut StateOf<'a, R>,
) -> Moved<'a, R::Mark>
    ensures { Steps result st.new (step_name update var strict.entry st.old) }
{
    match user_at(strict.current) {
        None => unlawful(st),
        Some(value) => {
            let frame = Frame::StepName(update, var, strict.links);
            convert(rows, frame, Operation::ToNumber, value, st)
        }
    }
}
