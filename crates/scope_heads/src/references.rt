//! References (ECMA-262, 6th edition, 12.1).

ghost use Rattle.std.specs.Prelude.{◌≡◌, [], ◌∷◌, ◌++◌, OnOk};
ghost use Rattle.scope_rules.specs.declared.mark.Mark.TheVariants.{Refers};

use es6_ast::Identifier;
use scope_rules::Marks;
use shared_text::Name;
use std::alloc::AllocError;

/// A reference by a name that begins at an offset in bytes.
pub fn refer_name<'a>(marks: &mut Marks<'a>, name: &'a Name, at: u32) -> Result<(), AllocError>
    ensures { OnOk result (marks.new ≡ marks.old ++ Refers name.now at ∷ []) }
{
    marks.refer(name.bytes(), at)
}

/// A reference by a name where it stands.
pub fn refer_identifier<'a>(marks: &mut Marks<'a>, name: &'a Identifier) -> Result<(), AllocError>
    ensures { OnOk result (marks.new ≡ marks.old ++ Refers name.now.name name.now.span.begin ∷ []) }
{
    refer_name(marks, &name.name, name.span.begin)
}
