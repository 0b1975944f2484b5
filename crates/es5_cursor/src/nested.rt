//! What stands one construct deeper (ECMA-262, 5.1 edition, 11).

/// What expression stands one construct deeper.
#[derive(Clone, Copy, Debug, PartialEq, Eq)]
pub enum Nested {
    /// Expression, as in parentheses.
    Sequence,
    /// AssignmentExpression, as after `=` or in a list.
    Assignment,
    /// The operand of a prefix operator.
    Unary,
    /// What `new` constructs.
    Callee,
}
