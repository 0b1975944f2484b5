//! The values of literals (ECMA-262, 6th edition, 12.2.4.1).

ghost use Rattle.std.specs.Prelude.{◌≡◌, IfOk};
ghost use Rattle.source_meaning.specs.Trees.{literal_value};

use es_value::{Str, Value};
use es6_ast::Literal;
use std::alloc::{AllocError, Global};

/// The value of a literal.
pub fn literal_value(alloc: Global, literal: &Literal) -> Result<Value, AllocError>
    ensures { IfOk result (λ value. value ≡ literal_value literal.now) }
{
    match literal {
        Literal::Null => Ok(Value::Null),
        Literal::Truth(truth) => Ok(Value::Bool(*truth)),
        Literal::Integer(number) => Ok(Value::Number(*number)),
        Literal::Text(units) => Ok(Value::Text(Str::of(alloc, units.units())?)),
    }
}
