//! The words of operators and kinds.

use es6_ast::{
    AssignOperator, BinaryOperator, MethodKind, UnaryOperator, UpdateOperator, VariableKind,
};

pub(crate) fn unary_word(operator: UnaryOperator) -> &'static str {
    match operator {
        UnaryOperator::Delete => "delete",
        UnaryOperator::Void => "void",
        UnaryOperator::Typeof => "typeof",
        UnaryOperator::Plus => "+",
        UnaryOperator::Minus => "-",
        UnaryOperator::BitNot => "~",
        UnaryOperator::Not => "!",
    }
}

pub(crate) fn update_word(operator: UpdateOperator) -> &'static str {
    match operator {
        UpdateOperator::IncrementBefore => "++x",
        UpdateOperator::DecrementBefore => "--x",
        UpdateOperator::IncrementAfter => "x++",
        UpdateOperator::DecrementAfter => "x--",
    }
}

pub(crate) fn binary_word(operator: BinaryOperator) -> &'static str {
    match operator {
        BinaryOperator::Or => "||",
        BinaryOperator::And => "&&",
        BinaryOperator::BitOr => "|",
        BinaryOperator::BitXor => "^",
        BinaryOperator::BitAnd => "&",
        BinaryOperator::Equal => "==",
        BinaryOperator::NotEqual => "!=",
        BinaryOperator::Same => "===",
        BinaryOperator::NotSame => "!==",
        BinaryOperator::Less => "<",
        BinaryOperator::Greater => ">",
        BinaryOperator::AtMost => "<=",
        BinaryOperator::AtLeast => ">=",
        BinaryOperator::InstanceOf => "instanceof",
        BinaryOperator::In => "in",
        BinaryOperator::ShiftLeft => "<<",
        BinaryOperator::ShiftRight => ">>",
        BinaryOperator::ShiftRightUnsigned => ">>>",
        BinaryOperator::Add => "+",
        BinaryOperator::Subtract => "-",
        BinaryOperator::Multiply => "*",
        BinaryOperator::Divide => "/",
        BinaryOperator::Remainder => "%",
    }
}

pub(crate) fn assign_word(operator: AssignOperator) -> &'static str {
    match operator {
        AssignOperator::Assign => "=",
        AssignOperator::MultiplyAssign => "*=",
        AssignOperator::DivideAssign => "/=",
        AssignOperator::RemainderAssign => "%=",
        AssignOperator::AddAssign => "+=",
        AssignOperator::SubtractAssign => "-=",
        AssignOperator::ShiftLeftAssign => "<<=",
        AssignOperator::ShiftRightAssign => ">>=",
        AssignOperator::ShiftRightUnsignedAssign => ">>>=",
        AssignOperator::BitAndAssign => "&=",
        AssignOperator::BitXorAssign => "^=",
        AssignOperator::BitOrAssign => "|=",
        AssignOperator::PowerAssign => "**=",
    }
}

pub(crate) fn kind_word(kind: VariableKind) -> &'static str {
    match kind {
        VariableKind::Var => "var",
        VariableKind::Let => "let",
        VariableKind::Const => "const",
    }
}

pub(crate) fn method_word(kind: MethodKind) -> &'static str {
    match kind {
        MethodKind::PlainMethod => "method",
        MethodKind::GetterMethod => "get",
        MethodKind::SetterMethod => "set",
        MethodKind::GeneratorMethod => "generator",
    }
}

/// Whether a comma ends an array literal.
pub(crate) fn ending_word(ends_in_comma: bool) -> &'static str {
    if ends_in_comma { "comma" } else { "plain" }
}

/// Whether a function is a generator function.
pub(crate) fn function_word(is_generator: bool) -> &'static str {
    if is_generator { "generator" } else { "plain" }
}

/// Whether a member of a class is static.
pub(crate) fn member_word(is_static: bool) -> &'static str {
    if is_static { "static" } else { "plain" }
}
