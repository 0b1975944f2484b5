//! Writes literals, property names and operators, each of which is one token.

ghost use Rattle.std.specs.Prelude.{◌≡◌, ◌∷◌, List, OnOk};
ghost use Rattle.es5_ast.specs.Grammar.{literal_kind, unary_kind, update_kind, binary_kind, assign_kind};
ghost use Rattle.es5_printer.specs.Layout.{written};
ghost use Rattle.es5_printer.specs.Pieces.{Piece, Lexeme, key_of};

use crate::sheet::Sheet;
use es5_ast::{AssignOperator5, BinaryOperator5, Key5, Literal5, UnaryOperator5, UpdateOperator5};
use std::alloc::AllocError;

pub(crate) fn print_literal(out: &mut Sheet, literal: &Literal5) -> Result<(), AllocError>
    ensures { OnOk result ((rest : List Piece) → written out.new rest ≡ written out.old (Lexeme (literal_kind literal.now) ∷ rest)) }
{
    match literal {
        Literal5::Null => out.word(b"null"),
        Literal5::Truth(true) => out.word(b"true"),
        Literal5::Truth(false) => out.word(b"false"),
        Literal5::Integer(value) => out.integer(*value),
        Literal5::Text(units) => out.text(units),
    }
}

pub(crate) fn print_key(out: &mut Sheet, key: &Key5) -> Result<(), AllocError>
    ensures { OnOk result ((rest : List Piece) → written out.new rest ≡ written out.old (key_of key.now rest)) }
{
    match key {
        Key5::WordKey(name) => out.word(name.bytes()),
        Key5::TextKey(units) => out.text(units),
        Key5::IntegerKey(value) => out.integer(*value),
    }
}

pub(crate) fn print_update(out: &mut Sheet, operator: UpdateOperator5) -> Result<(), AllocError>
    ensures { OnOk result ((rest : List Piece) → written out.new rest ≡ written out.old (Lexeme (update_kind operator) ∷ rest)) }
{
    match operator {
        UpdateOperator5::IncrementBefore => out.mark(b"++"),
        UpdateOperator5::DecrementBefore => out.mark(b"--"),
        UpdateOperator5::IncrementAfter => out.mark(b"++"),
        UpdateOperator5::DecrementAfter => out.mark(b"--"),
    }
}

pub(crate) fn print_unary(out: &mut Sheet, operator: UnaryOperator5) -> Result<(), AllocError>
    ensures { OnOk result ((rest : List Piece) → written out.new rest ≡ written out.old (Lexeme (unary_kind operator) ∷ rest)) }
{
    match operator {
        UnaryOperator5::Delete => out.word(b"delete"),
        UnaryOperator5::Void => out.word(b"void"),
        UnaryOperator5::Typeof => out.word(b"typeof"),
        UnaryOperator5::Plus => out.mark(b"+"),
        UnaryOperator5::Minus => out.mark(b"-"),
        UnaryOperator5::BitNot => out.mark(b"~"),
        UnaryOperator5::Not => out.mark(b"!"),
    }
}

pub(crate) fn print_binary(out: &mut Sheet, operator: BinaryOperator5) -> Result<(), AllocError>
    ensures { OnOk result ((rest : List Piece) → written out.new rest ≡ written out.old (Lexeme (binary_kind operator) ∷ rest)) }
{
    match operator {
        BinaryOperator5::Or => out.mark(b"||"),
        BinaryOperator5::And => out.mark(b"&&"),
        BinaryOperator5::BitOr => out.mark(b"|"),
        BinaryOperator5::BitXor => out.mark(b"^"),
        BinaryOperator5::BitAnd => out.mark(b"&"),
        BinaryOperator5::Equal => out.mark(b"=="),
        BinaryOperator5::NotEqual => out.mark(b"!="),
        BinaryOperator5::Same => out.mark(b"==="),
        BinaryOperator5::NotSame => out.mark(b"!=="),
        BinaryOperator5::Less => out.mark(b"<"),
        BinaryOperator5::Greater => out.mark(b">"),
        BinaryOperator5::AtMost => out.mark(b"<="),
        BinaryOperator5::AtLeast => out.mark(b">="),
        BinaryOperator5::InstanceOf => out.word(b"instanceof"),
        BinaryOperator5::In => out.word(b"in"),
        BinaryOperator5::ShiftLeft => out.mark(b"<<"),
        BinaryOperator5::ShiftRight => out.mark(b">>"),
        BinaryOperator5::ShiftRightUnsigned => out.mark(b">>>"),
        BinaryOperator5::Add => out.mark(b"+"),
        BinaryOperator5::Subtract => out.mark(b"-"),
        BinaryOperator5::Multiply => out.mark(b"*"),
        BinaryOperator5::Divide => out.mark(b"/"),
        BinaryOperator5::Remainder => out.mark(b"%"),
    }
}

pub(crate) fn print_assign(out: &mut Sheet, operator: AssignOperator5) -> Result<(), AllocError>
    ensures { OnOk result ((rest : List Piece) → written out.new rest ≡ written out.old (Lexeme (assign_kind operator) ∷ rest)) }
{
    match operator {
        AssignOperator5::Assign => out.mark(b"="),
        AssignOperator5::MultiplyAssign => out.mark(b"*="),
        AssignOperator5::DivideAssign => out.mark(b"/="),
        AssignOperator5::RemainderAssign => out.mark(b"%="),
        AssignOperator5::AddAssign => out.mark(b"+="),
        AssignOperator5::SubtractAssign => out.mark(b"-="),
        AssignOperator5::ShiftLeftAssign => out.mark(b"<<="),
        AssignOperator5::ShiftRightAssign => out.mark(b">>="),
        AssignOperator5::ShiftRightUnsignedAssign => out.mark(b">>>="),
        AssignOperator5::BitAndAssign => out.mark(b"&="),
        AssignOperator5::BitXorAssign => out.mark(b"^="),
        AssignOperator5::BitOrAssign => out.mark(b"|="),
    }
}
