//! Names and literals, which have no place in a text (ECMA-262, 5.1 edition, 11.1).

ghost use Rattle.std.specs.Prelude.{◌≡◌, IfOk};
ghost use Rattle.emission_rules.specs.Expressions.{flag};
ghost use Rattle.emission_rules.specs.Nodes.{identifier, integer, name, nothing, nowhere, text, this};
ghost use Rattle.es5_ast.specs.declared.tree.Expr5.TheVariants as expr;

use es_text::Span;
use es5_ast::{Expr5, Identifier5, Literal5, UnaryOperator5};
use es5_nodes::{Read, expressions};
use shared_text::{Name, Units};
use sqlite_items::Boxed;
use std::alloc::{AllocError, Global};

/// The place of what stands in no text.
pub fn nowhere() -> Span
    ensures { result ≡ nowhere }
{
    Span { begin: 0, end: 0 }
}

/// A name that is bound, from its bytes.
pub fn identifier(alloc: Global, text: &[u8]) -> Result<Identifier5, AllocError>
    ensures { IfOk result (λ x. x ≡ identifier text.now) }
{
    Ok(Identifier5 {
        span: nowhere(),
        name: Name::of_bytes(alloc, text)?,
    })
}

/// A name that is read, from its bytes.
pub fn name(alloc: Global, text: &[u8]) -> Result<Boxed<Expr5>, AllocError>
    ensures { IfOk result (λ x. x ≡ name text.now) }
{
    let name = Name::of_bytes(alloc, text)?;
    Ok(Read::bare(alloc, nowhere(), name)?.into_value())
}

pub(crate) fn literal(alloc: Global, value: Literal5) -> Result<Boxed<Expr5>, AllocError>
    ensures { IfOk result (λ x. x ≡ expr.Literal nowhere value) }
{
    Ok(expressions::literal(alloc, nowhere(), value)?.into_value())
}

/// A number.
pub fn integer(alloc: Global, value: u64) -> Result<Boxed<Expr5>, AllocError>
    ensures { IfOk result (λ x. x ≡ integer value) }
{
    literal(alloc, Literal5::Integer(value))
}

/// A truth value.
pub(crate) fn flag(alloc: Global, value: bool) -> Result<Boxed<Expr5>, AllocError>
    ensures { IfOk result (λ x. x ≡ flag value) }
{
    literal(alloc, Literal5::Truth(value))
}

/// A text of these UTF-16 units.
pub fn text(alloc: Global, units: &[u16]) -> Result<Boxed<Expr5>, AllocError>
    ensures { IfOk result (λ x. x ≡ text units.now) }
{
    let units = Units::of_units(Vec::from_slice(alloc, units)?);
    literal(alloc, Literal5::Text(units))
}

fn widened(alloc: Global, bytes: &[u8]) -> Result<Vec<u16>, AllocError>
    ensures { IfOk result (λ units. units.items ≡ bytes.now) }
{
    let mut units = Vec::new(alloc);
    for byte in bytes {
        units.push(u16::from(*byte))?;
    }
    Ok(units)
}

/// A text with a unit for each byte, as those of an identifier are in ASCII.
pub fn word_text(alloc: Global, bytes: &[u8]) -> Result<Boxed<Expr5>, AllocError>
    ensures { IfOk result (λ x. x ≡ text bytes.now) }
{
    let units = Units::of_units(widened(alloc, bytes)?);
    literal(alloc, Literal5::Text(units))
}

/// `void 0`, since `undefined` is a name.
pub fn nothing(alloc: Global) -> Result<Boxed<Expr5>, AllocError>
    ensures { IfOk result (λ x. x ≡ nothing) }
{
    let zero = integer(alloc, 0)?;
    Ok(expressions::unary(alloc, nowhere(), UnaryOperator5::Void, zero)?.into_value())
}

/// `this`
pub fn this(alloc: Global) -> Result<Boxed<Expr5>, AllocError>
    ensures { IfOk result (λ x. x ≡ this) }
{
    Ok(expressions::this(alloc, nowhere())?.into_value())
}
