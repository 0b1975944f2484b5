//! The primitives that were met.

ghost use Rattle.std.specs.Prelude.{◌≡◌};
ghost use Rattle.core_primitives.specs.Used.{none, of_primitive, used_primitives};

use crate::walk;
use core_ast::{Core, Primitive};

/// For each primitive, whether the script of a core calls it.
#[derive(Clone, Copy, Debug, PartialEq, Eq)]
pub struct UsedPrimitives {
    pub check_ready: bool,
    pub refuse_const: bool,
    pub cell_make: bool,
    pub to_text: bool,
    pub iter_start: bool,
    pub iter_step: bool,
    pub iter_value: bool,
    pub iter_close: bool,
    pub rest_list: bool,
    pub spread_list: bool,
    pub construct: bool,
    pub namespace_make: bool,
    pub class_make: bool,
    pub class_guard: bool,
    pub new_target: bool,
    pub super_construct: bool,
    pub this_bind: bool,
    pub super_get: bool,
    pub method_put: bool,
    pub accessor_put: bool,
    pub arguments_put: bool,
    pub generator_make: bool,
    pub generator_resume: bool,
    pub delegate_step: bool,
    pub power: bool,
    pub template_object: bool,
    pub includes_put: bool,
}

impl UsedPrimitives {
    /// None so far.
    pub fn none() -> UsedPrimitives
        ensures { result ≡ none }
    {
        UsedPrimitives {
            check_ready: false,
            refuse_const: false,
            cell_make: false,
            to_text: false,
            iter_start: false,
            iter_step: false,
            iter_value: false,
            iter_close: false,
            rest_list: false,
            spread_list: false,
            construct: false,
            namespace_make: false,
            class_make: false,
            class_guard: false,
            new_target: false,
            super_construct: false,
            this_bind: false,
            super_get: false,
            method_put: false,
            accessor_put: false,
            arguments_put: false,
            generator_make: false,
            generator_resume: false,
            delegate_step: false,
            power: false,
            template_object: false,
            includes_put: false,
        }
    }

    /// Those that the script of a core calls, in its functions and its modules.
    pub fn of_core(core: &Core) -> UsedPrimitives
        ensures { result ≡ used_primitives core.now }
    {
        walk::whole(core)
    }

    /// One more.
    #[tactic(auto, unfolding(crate::specs::Used::of_primitive))]
    pub(crate) fn with(self, primitive: Primitive) -> UsedPrimitives
        ensures { result ≡ of_primitive primitive self }
    {
        let mut used = self;
        match primitive {
            Primitive::CheckReady => used.check_ready = true,
            Primitive::RefuseConst => used.refuse_const = true,
            Primitive::CellMake(_) => used.cell_make = true,
            Primitive::ToText => used.to_text = true,
            Primitive::IterStart => used.iter_start = true,
            Primitive::IterStep => used.iter_step = true,
            Primitive::IterValue => used.iter_value = true,
            Primitive::IterClose => used.iter_close = true,
            Primitive::RestList => used.rest_list = true,
            Primitive::SpreadList => used.spread_list = true,
            Primitive::Construct => used.construct = true,
            Primitive::NamespaceMake => used.namespace_make = true,
            Primitive::ClassMake => used.class_make = true,
            Primitive::ClassGuard => used.class_guard = true,
            Primitive::NewTarget => used.new_target = true,
            Primitive::SuperConstruct => used.super_construct = true,
            Primitive::ThisBind => used.this_bind = true,
            Primitive::SuperGet => used.super_get = true,
            Primitive::MethodPut => used.method_put = true,
            Primitive::AccessorPut => used.accessor_put = true,
            Primitive::ArgumentsPut => used.arguments_put = true,
            Primitive::GeneratorMake => used.generator_make = true,
            Primitive::GeneratorResume => used.generator_resume = true,
            Primitive::DelegateStep => used.delegate_step = true,
            Primitive::Power => used.power = true,
            Primitive::TemplateObject => used.template_object = true,
            Primitive::IncludesPut => used.includes_put = true,
        }
        used
    }
}
