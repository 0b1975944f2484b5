//! Where scopes begin and end that not each function or class has (ECMA-262, 6th edition, 9.2.12, 14.1.20 and 14.5.14).

ghost use Rattle.std.specs.Prelude.{◌≡◌, [], ◌∷◌, ◌++◌, OnOk};
ghost use Rattle.scope_heads.specs.Heads.{body_begins, body_ends, own_begins, own_ends};
ghost use Rattle.scope_rules.specs.Marks.{arguments_mark};
ghost use Rattle.scope_rules.specs.declared.mark.Mark.TheVariants.{ScopeBegins};
ghost use Rattle.scope_rules.specs.declared.kinds.ScopeKind.TheVariants.{Function};

use es6_ast::Identifier;
use scope_rules::{Kind, Marks, ScopeKind};
use std::alloc::AllocError;

/// Begins the scope of a name by itself, if there is one, whose declarator ends at an offset in bytes.
pub fn begin_own<'a>(
    marks: &mut Marks<'a>,
    kind: Kind,
    end: u32,
    name: &'a Option<Identifier>,
) -> Result<(), AllocError>
    ensures { OnOk result (marks.new ≡ marks.old ++ own_begins kind end name.now) }
{
    match name {
        None => Ok(()),
        Some(name) => {
            marks.begin_scope(ScopeKind::Block, name.span.begin)?;
            marks.declare_name(kind, end, name)
        }
    }
}

/// Ends the scope of a name by itself, if there is one.
pub fn end_own(marks: &mut Marks, name: &Option<Identifier>) -> Result<(), AllocError>
    ensures { OnOk result (marks.new ≡ marks.old ++ own_ends name.now) }
{
    match name {
        None => Ok(()),
        Some(_) => marks.end_scope(),
    }
}

/// Begins the scope of a function that is no arrow, with the name `arguments`.
pub fn begin_function(marks: &mut Marks, begin: u32) -> Result<(), AllocError>
    ensures { OnOk result (marks.new ≡ marks.old ++ ScopeBegins Function begin ∷ arguments_mark begin ∷ []) }
{
    marks.begin_scope(ScopeKind::Function, begin)?;
    marks.declare_arguments(begin)
}

/// Begins the scope of a body that ends at an offset in bytes, if it has its own.
pub fn begin_body(marks: &mut Marks, is_own: bool, end: u32) -> Result<(), AllocError>
    ensures { OnOk result (marks.new ≡ marks.old ++ body_begins is_own end) }
{
    if is_own {
        marks.begin_scope(ScopeKind::Body, end)
    } else {
        Ok(())
    }
}

/// Ends the scope of a body, if it has its own.
pub fn end_body(marks: &mut Marks, is_own: bool) -> Result<(), AllocError>
    ensures { OnOk result (marks.new ≡ marks.old ++ body_ends is_own) }
{
    if is_own { marks.end_scope() } else { Ok(()) }
}
