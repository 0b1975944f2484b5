//! What the script's helpers are called.

ghost use Rattle.std.specs.Prelude.{◌≡◌};
ghost use Rattle.emission_rules.specs.Primitives.{helper_name};

use core_ast::Primitive;

/// The name of the primitive's helper, as bytes.
#[tactic(auto, unfolding(emission_rules::specs::Primitives::helper_name))]
pub fn helper_name(primitive: Primitive) -> &'static [u8]
    ensures { result.now ≡ helper_name primitive }
{
    match primitive {
        Primitive::CheckReady => b"check_ready",
        Primitive::RefuseConst => b"refuse_const",
        Primitive::CellMake(_) => b"cell_make",
        Primitive::ToText => b"to_text",
        Primitive::IterStart => b"iter_start",
        Primitive::IterStep => b"iter_step",
        Primitive::IterValue => b"iter_value",
        Primitive::IterClose => b"iter_close",
        Primitive::RestList => b"rest_list",
        Primitive::SpreadList => b"spread_list",
        Primitive::Construct => b"construct",
        Primitive::NamespaceMake => b"namespace_make",
        Primitive::ClassMake => b"class_make",
        Primitive::ClassGuard => b"class_guard",
        Primitive::NewTarget => b"new_target",
        Primitive::SuperConstruct => b"super_construct",
        Primitive::ThisBind => b"this_bind",
        Primitive::SuperGet => b"super_get",
        Primitive::MethodPut => b"method_put",
        Primitive::AccessorPut => b"accessor_put",
        Primitive::ArgumentsPut => b"arguments_put",
        Primitive::GeneratorMake => b"generator_make",
        Primitive::GeneratorResume => b"generator_resume",
        Primitive::DelegateStep => b"delegate_step",
        Primitive::Power => b"power",
        Primitive::TemplateObject => b"template_object",
        Primitive::IncludesPut => b"includes_put",
    }
}
