//! Writes a module as a script, node by node.

ghost use Rattle.std.specs.Prelude.{◌≡◌, ◌∷◌, ◌++◌, [], List, true, OnOk, IfOk};
ghost use Rattle.std.specs.List.{list_all};
ghost use Rattle.std.specs.Fmt.{decimal};
ghost use Rattle.first_script.specs.Pieces.{Piece, spelling, is_plain_unit, text_of, term_token, added_pieces, sum_pieces, more_pieces, argument_pieces, call_pieces, expression_pieces, declaration_pieces, item_pieces, items_pieces, script_pieces, is_plain_term, is_plain_sum, is_plain_call, is_plain_expression, is_plain_item};

use first_trees::{Call, Expression, Item, Module, Sum, Term};
use shared_text::{Name, Units};
use std::alloc::{AllocError, Global};

/// The text of the module's script, in which this suffix stands after each declared name.
pub(crate) fn print_script(
    alloc: Global,
    source: &Module,
    suffix: &[u8],
) -> Result<Vec<u8>, AllocError>
    requires { list_all is_plain_item source.now.items ≡ true }
    ensures { IfOk result (λ out. out.items ≡ text_of (script_pieces suffix.now source.now)) }
{
    let mut out = Vec::new(alloc);
    out.extend_from_slice(b"\"use strict\";\n")?;
    for item in source.items.as_slice() {
        print_item(alloc, &mut out, item, suffix)?;
    }
    Ok(out)
}

fn print_item(
    alloc: Global,
    out: &mut Vec<u8>,
    item: &Item,
    suffix: &[u8],
) -> Result<(), AllocError>
    requires { is_plain_item item.now ≡ true }
    ensures { OnOk result ((rest : List Piece) → out.new.items ++ text_of rest ≡ out.old.items ++ text_of (item_pieces suffix.now item.now rest)) }
{
    match item {
        Item::Import { .. } => Ok(()),
        Item::Declaration { name, init, .. } => print_declaration(alloc, out, name, init, suffix),
        Item::Expression(call) => {
            print_call(alloc, out, call, suffix)?;
            out.extend_from_slice(b";\n")
        }
    }
}

/// Writes `var NAME = INIT;`.
fn print_declaration(
    alloc: Global,
    out: &mut Vec<u8>,
    name: &Name,
    init: &Expression,
    suffix: &[u8],
) -> Result<(), AllocError>
    requires { is_plain_expression init.now ≡ true }
    ensures { OnOk result ((rest : List Piece) → out.new.items ++ text_of rest ≡ out.old.items ++ text_of (declaration_pieces suffix.now name.now init.now rest)) }
{
    out.extend_from_slice(b"var ")?;
    out.extend_from_slice(name.bytes())?;
    out.extend_from_slice(suffix)?;
    out.extend_from_slice(b" = ")?;
    print_expression(alloc, out, init, suffix)?;
    out.extend_from_slice(b";\n")
}

fn print_expression(
    alloc: Global,
    out: &mut Vec<u8>,
    expression: &Expression,
    suffix: &[u8],
) -> Result<(), AllocError>
    requires { is_plain_expression expression.now ≡ true }
    ensures { OnOk result ((rest : List Piece) → out.new.items ++ text_of rest ≡ out.old.items ++ text_of (expression_pieces suffix.now expression.now rest)) }
{
    match expression {
        Expression::Sum(sum) => print_sum(alloc, out, sum, suffix),
        Expression::Call(call) => print_call(alloc, out, call, suffix),
    }
}

fn print_call(
    alloc: Global,
    out: &mut Vec<u8>,
    call: &Call,
    suffix: &[u8],
) -> Result<(), AllocError>
    requires { is_plain_call call.now ≡ true }
    ensures { OnOk result ((rest : List Piece) → out.new.items ++ text_of rest ≡ out.old.items ++ text_of (call_pieces suffix.now call.now rest)) }
{
    out.extend_from_slice(call.callee.bytes())?;
    out.push(b'(')?;
    print_arguments(alloc, out, call.args.as_slice(), suffix)?;
    out.push(b')')?;
    Ok(())
}

fn print_arguments(
    alloc: Global,
    out: &mut Vec<u8>,
    args: &[Sum],
    suffix: &[u8],
) -> Result<(), AllocError>
    requires { list_all is_plain_sum args.now ≡ true }
    ensures { OnOk result ((rest : List Piece) → out.new.items ++ text_of rest ≡ out.old.items ++ text_of (argument_pieces suffix.now args.now rest)) }
{
    match args.split_first() {
        None => Ok(()),
        Some((first, others)) => {
            print_sum(alloc, out, first, suffix)?;
            print_more_arguments(alloc, out, others, suffix)
        }
    }
}

/// Writes the arguments after the first, each behind a comma.
fn print_more_arguments(
    alloc: Global,
    out: &mut Vec<u8>,
    args: &[Sum],
    suffix: &[u8],
) -> Result<(), AllocError>
    requires { list_all is_plain_sum args.now ≡ true }
    ensures { OnOk result ((rest : List Piece) → out.new.items ++ text_of rest ≡ out.old.items ++ text_of (more_pieces suffix.now args.now rest)) }
{
    for sum in args {
        out.extend_from_slice(b", ")?;
        print_sum(alloc, out, sum, suffix)?;
    }
    Ok(())
}

fn print_sum(alloc: Global, out: &mut Vec<u8>, sum: &Sum, suffix: &[u8]) -> Result<(), AllocError>
    requires { is_plain_sum sum.now ≡ true }
    ensures { OnOk result ((rest : List Piece) → out.new.items ++ text_of rest ≡ out.old.items ++ text_of (sum_pieces suffix.now sum.now rest)) }
{
    print_term(alloc, out, &sum.first, suffix)?;
    print_added(alloc, out, sum.rest.as_slice(), suffix)
}

/// Writes the operands after the first, each behind its operator.
fn print_added(
    alloc: Global,
    out: &mut Vec<u8>,
    terms: &[Term],
    suffix: &[u8],
) -> Result<(), AllocError>
    requires { list_all is_plain_term terms.now ≡ true }
    ensures { OnOk result ((rest : List Piece) → out.new.items ++ text_of rest ≡ out.old.items ++ text_of (added_pieces suffix.now terms.now rest)) }
{
    for term in terms {
        out.extend_from_slice(b" + ")?;
        print_term(alloc, out, term, suffix)?;
    }
    Ok(())
}

fn print_term(
    alloc: Global,
    out: &mut Vec<u8>,
    term: &Term,
    suffix: &[u8],
) -> Result<(), AllocError>
    requires { is_plain_term term.now ≡ true }
    ensures { OnOk result (out.new.items ≡ out.old.items ++ spelling (term_token suffix.now term.now)) }
{
    match term {
        Term::Integer { value, .. } => print_integer(alloc, out, *value),
        Term::Text { units, .. } => print_text(out, units),
        Term::Name { name, .. } => {
            out.extend_from_slice(name.bytes())?;
            out.extend_from_slice(suffix)
        }
    }
}

/// Writes an integer in decimal digits.
fn print_integer(alloc: Global, out: &mut Vec<u8>, value: u64) -> Result<(), AllocError>
    ensures { OnOk result (out.new.items ≡ out.old.items ++ decimal value) }
{
    let digits = format!(in alloc; "{value}")?;
    out.extend_from_slice(digits.as_bytes())
}

/// Writes a text between quotes.
fn print_text(out: &mut Vec<u8>, text: &Units) -> Result<(), AllocError>
    requires { list_all is_plain_unit text.now ≡ true }
    ensures { OnOk result (out.new.items ≡ out.old.items ++ 34 ∷ text.now ++ 34 ∷ []) }
{
    out.push(b'"')?;
    for unit in text.units() {
        out.push(*unit as u8)?;
    }
    out.push(b'"')?;
    Ok(())
}
