//! Targets that declare names (ECMA-262, 6th edition, 13.3).

ghost use Rattle.std.specs.Prelude.{◌≡◌, ◌++◌, OnOk};
ghost use Rattle.scope_rules.specs.Marks.{declared_name, expression_marked, kind_of};

use es6_ast::{Expression, VariableKind};
use scope_rules::{Kind, Marks};
use std::alloc::AllocError;

/// What a declaration of variables declares names as.
pub fn kind_of(kind: VariableKind) -> Kind
    ensures { result ≡ kind_of kind }
{
    match kind {
        VariableKind::Var => Kind::Variable,
        VariableKind::Let => Kind::Let,
        VariableKind::Const => Kind::Constant,
    }
}

/// The name that a target declares, in parentheses too.
pub fn declare_target<'a>(
    marks: &mut Marks<'a>,
    kind: Kind,
    end: u32,
    target: &'a Expression,
) -> Result<(), AllocError>
    ensures { OnOk result (marks.new ≡ marks.old ++ declared_name kind end (expression_marked target.now).name) }
{
    match target {
        Expression::Name { span, name } => marks.declare(kind, name.bytes(), span.begin, end),
        Expression::Group { held, .. } => declare_target(marks, kind, end, held.get()),
        _ => Ok(()),
    }
}
