//! What lists of nodes grow by.

ghost use Rattle.std.specs.Prelude.{◌≡◌, ◌++◌, ◌∷◌, [], OnOk};
ghost use Rattle.es5_ast.specs.declared.tree.Operand5.{roll-Operand5};

use es5_ast::{BinaryOperator5, Element5, Expr5, Operand5};
use sqlite_items::{Boxed, Items};
use std::alloc::AllocError;

/// One more node.
#[inline(never)]
pub fn push<T: Drop>(list: &mut Items<T>, node: Boxed<T>) -> Result<(), AllocError>
    ensures { OnOk result (list.new ≡ list.old ++ node ∷ []) }
{
    list.push(node.into_inner())
}

/// An operator and what follows it (11.5 to 11.11).
#[inline(never)]
pub fn push_operand(
    list: &mut Items<Operand5>,
    operator: BinaryOperator5,
    value: Boxed<Expr5>,
) -> Result<(), AllocError>
    ensures { OnOk result (list.new ≡ list.old ++ roll-Operand5 (record { operator = operator; value = value }) ∷ []) }
{
    list.push(Operand5 {
        operator,
        value: value.into_inner(),
    })
}

/// An element of an array literal (11.1.4).
#[inline(never)]
pub fn push_element(list: &mut Items<Element5>, value: Boxed<Expr5>) -> Result<(), AllocError>
    ensures { OnOk result (list.new ≡ list.old ++ Element5.Element value ∷ []) }
{
    list.push(Element5::Element(value.into_inner()))
}

/// A hole of an array literal (11.1.4).
#[inline(never)]
pub fn push_hole(list: &mut Items<Element5>) -> Result<(), AllocError>
    ensures { OnOk result (list.new ≡ list.old ++ Element5.Hole ∷ []) }
{
    list.push(Element5::Hole)
}
