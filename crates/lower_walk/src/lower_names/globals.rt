//! Global names (ECMA-262, 6th edition, 18 and 19).

ghost use Rattle.std.specs.Prelude.{◌≡◌};
ghost use Rattle.module_lowering.specs.Bindings.{global_among, globals};

use core_ast::Global;
use lowering_rules::reference_rules::NamedValue;

/// What a name stands for that no scope declares.
pub(crate) fn global_value(name: &[u8]) -> NamedValue
    ensures { result ≡ global_among name.now globals }
{
    if b"Object".as_slice() == name {
        NamedValue::GlobalName(Global::ObjectGlobal)
    } else if b"Array".as_slice() == name {
        NamedValue::GlobalName(Global::ArrayGlobal)
    } else if b"String".as_slice() == name {
        NamedValue::GlobalName(Global::StringGlobal)
    } else if b"Error".as_slice() == name {
        NamedValue::GlobalName(Global::ErrorGlobal)
    } else if b"TypeError".as_slice() == name {
        NamedValue::GlobalName(Global::TypeErrorGlobal)
    } else if b"ReferenceError".as_slice() == name {
        NamedValue::GlobalName(Global::ReferenceErrorGlobal)
    } else if b"RangeError".as_slice() == name {
        NamedValue::GlobalName(Global::RangeErrorGlobal)
    } else {
        NamedValue::UndefinedName
    }
}
