//! The expression of the current value.

ghost use Rattle.std.specs.Prelude.{◌≡◌, cond, IfOk};
ghost use Rattle.emission_rules.specs.Expressions.{callee};
ghost use Rattle.emission_rules.specs.Primitives.{concealed, framed, helped, shown};

use crate::chains::{applied, member};
use crate::helpers::helper_name;
use crate::leaves::{integer, name};
use crate::operands::paired;
use core_ast::Primitive;
use es5_ast::Expr5;
use sqlite_items::{Boxed, Items};
use std::alloc::{AllocError, Global};
use std::marker::Model;

/// The expression of the current value, and whether it is hidden: whether it reads a property that the core knows nothing of, so that
/// a call of it has no receiver.
#[derive(Drop)]
pub struct CurrentValue {
    value: Boxed<Expr5>,
    hidden: bool,
}

impl Model for CurrentValue {
    ghost use Rattle.es5_ast.specs.contracts.tree.Expr5 as expression;
    ghost use Rattle.emission_rules.specs.declared.scene.Current.{Current};
    ghost use Rattle.std.specs.Coded.{codes};

    ghost Value = { Current };

    ghost coded = { Prim.hlevel (codes, expression.the_row.coded) };

    ghost view = { λ c. record { value = c.value; hidden = c.hidden } };
}

impl CurrentValue {
    /// A value that the core knows of.
    pub fn shown(value: Boxed<Expr5>) -> CurrentValue
        ensures { result ≡ shown value }
    {
        CurrentValue {
            value,
            hidden: false,
        }
    }

    /// A property that the core knows nothing of.
    pub(crate) fn concealed(value: Boxed<Expr5>) -> CurrentValue
        ensures { result ≡ concealed value }
    {
        CurrentValue {
            value,
            hidden: true,
        }
    }

    pub fn into_value(self) -> Boxed<Expr5>
        ensures { result ≡ self.value }
    {
        let CurrentValue { value, hidden: _ } = self;
        value
    }
}

/// A property of the frame.
pub(crate) fn framed(alloc: Global, key: &[u8]) -> Result<CurrentValue, AllocError>
    ensures { IfOk result (λ c. c ≡ framed key.now) }
{
    let frame = name(alloc, b"frame")?;
    Ok(CurrentValue::concealed(member(alloc, frame, key)?))
}

/// The primitive's helper with these operands.
pub(crate) fn helped(
    alloc: Global,
    primitive: Primitive,
    operands: Items<Expr5>,
) -> Result<CurrentValue, AllocError>
    ensures { IfOk result (λ c. c ≡ helped primitive operands) }
{
    Ok(CurrentValue::shown(applied(alloc, helper_name(primitive), operands)?))
}

/// What is called: a property that the core knows nothing of gives no receiver (ECMA-262, 5.1 edition, 11.2.3).
pub(crate) fn callee(alloc: Global, current: CurrentValue) -> Result<Boxed<Expr5>, AllocError>
    ensures { IfOk result (λ x. x ≡ callee current) }
{
    let CurrentValue { value, hidden } = current;
    if hidden {
        return paired(alloc, integer(alloc, 0)?, value);
    }
    Ok(value)
}
