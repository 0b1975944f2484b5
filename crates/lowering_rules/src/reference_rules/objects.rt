//! Object literals.

use crate::MemberKind;
use core_ast::{CoreExpr, FunctionId, Key};
use shared_text::Units;

/// The key of a member: as it is written, with the text that names the property, or an expression in brackets.
#[derive(Drop)]
pub enum ObjectKey {
    Written { key: Key, text: Units },
    Evaluated(CoreExpr),
}

/// A member of an object literal. A shorthand has the value of its name.
#[derive(Drop)]
pub enum ObjectMember {
    Valued {
        key: ObjectKey,
        value: CoreExpr,
    },
    Defined {
        key: ObjectKey,
        kind: MemberKind,
        function: FunctionId,
    },
}
