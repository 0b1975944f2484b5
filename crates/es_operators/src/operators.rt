//! What the operators do to primitive values, and equality of all values.
ghost use Rattle.std.specs.Prelude.{◌≡◌, ℤ, Result, int_lt, IfOk};
ghost use Rattle.std.specs.Ordering.{nat_cmp, is_lt};
ghost use Rattle.std.specs.Cmp.Lexicographic.{slice_cmp};
ghost use Rattle.es_value.specs.declared.arithmetic.Exit.{Exit as ExitValue};
ghost use Rattle.es_value.specs.Arithmetic.{sum};
ghost use Rattle.es_value.specs.Convert.{number_of};
ghost use Rattle.es_value.specs.Equality.{same_truth};
ghost use Rattle.es_operators.specs.Operators.{given, calculate, arithmetic, is_text, addition, truth, is_less, relation_of, negation, complement, is_nothing, equal_numbers, loose, loose_equality};

use es_value::{
    Exit, Value, add, and, compare, concat, div, mul, not, or, power, rem, same, shl, shr, sub,
    to_number, to_text, ushr, xor,
};
use std::alloc::{AllocError, Global};
use std::cmp::Ordering;

/// An operator that converts both operands to numbers.
#[derive(Clone, Copy, Debug, PartialEq, Eq)]
pub enum Arithmetic {
    Subtract,
    Multiply,
    Divide,
    Remainder,
    Power,
    And,
    Or,
    ExclusiveOr,
    ShiftLeft,
    ShiftRight,
    ShiftRightUnsigned,
}

/// An operator that asks for the order of its operands.
#[derive(Clone, Copy, Debug, PartialEq, Eq)]
pub enum Relation {
    Less,
    Greater,
    LessOrEqual,
    GreaterOrEqual,
}

/// What an operator gives.
#[derive(Debug, Drop)]
pub enum Outcome {
    Gives(Value),
    /// The run leaves the profile at the exit of this number.
    Leaves(u8),
}

/// What `==` gives.
#[derive(Clone, Copy, Debug, PartialEq, Eq)]
pub enum Equality {
    Is(bool),
    /// The left operand, an object, is to be converted to a primitive, and then compared again.
    ConvertLeft,
    /// So is the right operand.
    ConvertRight,
    /// The run leaves the profile at the exit of this number.
    Leaves(u8),
}

fn given(number: Result<i64, Exit>) -> Outcome
    ensures { result ≡ given number }
{
    match number {
        Ok(number) => Outcome::Gives(Value::Number(number)),
        Err(exit) => Outcome::Leaves(exit.number()),
    }
}

fn calculate(operator: Arithmetic, a: i64, b: i64) -> Result<i64, Exit>
    ensures { result ≡ calculate operator a b }
{
    match operator {
        Arithmetic::Subtract => sub(a, b),
        Arithmetic::Multiply => mul(a, b),
        Arithmetic::Divide => div(a, b),
        Arithmetic::Remainder => rem(a, b),
        Arithmetic::Power => power(a, b),
        Arithmetic::And => Ok(and(a, b)),
        Arithmetic::Or => Ok(or(a, b)),
        Arithmetic::ExclusiveOr => Ok(xor(a, b)),
        Arithmetic::ShiftLeft => Ok(shl(a, b)),
        Arithmetic::ShiftRight => Ok(shr(a, b)),
        Arithmetic::ShiftRightUnsigned => Ok(ushr(a, b)),
    }
}

/// An arithmetic operator on two primitives (12.6 to 12.8 and 12.11; 7th edition, 12.6).
pub fn arithmetic_of(operator: Arithmetic, a: &Value, b: &Value) -> Outcome
    ensures { result ≡ arithmetic operator a.now b.now }
{
    match to_number(a) {
        Err(exit) => Outcome::Leaves(exit.number()),
        Ok(m) => match to_number(b) {
            Err(exit) => Outcome::Leaves(exit.number()),
            Ok(n) => given(calculate(operator, m, n)),
        },
    }
}

fn is_text(value: &Value) -> bool
    ensures { result ≡ is_text value.now }
{
    matches!(value, Value::Text(_))
}

/// `+` of two primitives (12.7.3).
pub fn add_values(alloc: Global, a: &Value, b: &Value) -> Result<Outcome, AllocError>
    ensures { IfOk result (λ outcome. outcome ≡ addition a.now b.now) }
{
    if is_text(a) || is_text(b) {
        let text = concat(alloc, &to_text(alloc, a)?, &to_text(alloc, b)?)?;
        return Ok(Outcome::Gives(Value::Text(text)));
    }
    match to_number(a) {
        Err(exit) => Ok(Outcome::Leaves(exit.number())),
        Ok(m) => match to_number(b) {
            Err(exit) => Ok(Outcome::Leaves(exit.number())),
            Ok(n) => Ok(given(add(m, n))),
        },
    }
}

fn same_truth(a: bool, b: bool) -> bool
    ensures { result ≡ same_truth a b }
{
    a == b
}

/// Whether `a` is less than `b` (7.2.11), or the opposite where `turned` is false.
fn is_less(a: &Value, b: &Value, turned: bool) -> Outcome
    ensures { result ≡ is_less a.now b.now turned }
{
    if let (Value::Text(us), Value::Text(vs)) = (a, b) {
        let less = compare(us, vs) == Ordering::Less;
        return Outcome::Gives(Value::Bool(same_truth(turned, less)));
    }
    match to_number(a) {
        Err(exit) => Outcome::Leaves(exit.number()),
        Ok(m) => match to_number(b) {
            Err(exit) => Outcome::Leaves(exit.number()),
            Ok(n) => Outcome::Gives(Value::Bool(same_truth(turned, m < n))),
        },
    }
}

/// `<`, `>`, `<=` and `>=` of two primitives (12.9.3).
pub fn relation_of(relation: Relation, a: &Value, b: &Value) -> Outcome
    ensures { result ≡ relation_of relation a.now b.now }
{
    match relation {
        Relation::Less => is_less(a, b, true),
        Relation::Greater => is_less(b, a, true),
        Relation::LessOrEqual => is_less(b, a, false),
        Relation::GreaterOrEqual => is_less(a, b, false),
    }
}

/// `+` of a primitive (12.5.9), which is what `++` and `--` add to as well (12.4.4, 12.4.5, 12.5.7 and 12.5.8).
pub fn plus_of(value: &Value) -> Outcome
    ensures { result ≡ given (number_of value.now) }
{
    given(to_number(value))
}

/// `-` of a primitive (12.5.10).
pub fn negation_of(value: &Value) -> Outcome
    ensures { result ≡ negation (number_of value.now) }
{
    match to_number(value) {
        Ok(number) => given(sub(0, number)),
        Err(exit) => Outcome::Leaves(exit.number()),
    }
}

/// `~` of a primitive (12.5.11).
pub fn complement_of(value: &Value) -> Outcome
    ensures { result ≡ complement (number_of value.now) }
{
    match to_number(value) {
        Ok(number) => Outcome::Gives(Value::Number(not(number))),
        Err(exit) => Outcome::Leaves(exit.number()),
    }
}

/// Whether the value is undefined or null.
pub fn is_nothing(value: &Value) -> bool
    ensures { result ≡ is_nothing value.now }
{
    matches!(value, Value::Undefined | Value::Null)
}

fn equal_numbers(a: &Value, b: &Value) -> Equality
    ensures { result ≡ equal_numbers (number_of a.now) (number_of b.now) }
{
    match to_number(a) {
        Err(exit) => Equality::Leaves(exit.number()),
        Ok(m) => match to_number(b) {
            Err(exit) => Equality::Leaves(exit.number()),
            Ok(n) => Equality::Is(m == n),
        },
    }
}

fn loose(a: &Value, b: &Value) -> Equality
    ensures { result ≡ loose a.now b.now }
{
    match (a, b) {
        (Value::Object(_), Value::Object(_))
        | (Value::Bool(_), Value::Bool(_))
        | (Value::Number(_), Value::Number(_))
        | (Value::Text(_), Value::Text(_)) => Equality::Is(same(a, b)),
        (Value::Object(_), _) => Equality::ConvertLeft,
        (_, Value::Object(_)) => Equality::ConvertRight,
        _ => equal_numbers(a, b),
    }
}

/// `==` of two values (7.2.12).
pub fn loose_equality(a: &Value, b: &Value) -> Equality
    ensures { result ≡ loose_equality a.now b.now }
{
    if is_nothing(a) || is_nothing(b) {
        Equality::Is(same_truth(is_nothing(a), is_nothing(b)))
    } else {
        loose(a, b)
    }
}
