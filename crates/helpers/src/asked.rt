//! What the script of a core calls itself.

ghost use Rattle.std.specs.Prelude.{◌≡◌};
ghost use Rattle.std.specs.Str.{bytes_eq};
ghost use Rattle.helpers.specs.Wanted.{asked, asked_class, asked_generator, asked_iteration, asked_object, asked_value};

use core_primitives::UsedPrimitives;

fn is(name: &[u8], word: &[u8]) -> bool
    ensures { result ≡ bytes_eq word.now name.now }
{
    word == name
}

#[tactic(auto, unfolding(emission_rules::specs::Primitives::helper_name, crate::specs::Wanted::asked_value))]
fn asked_value(used: &UsedPrimitives, name: &[u8]) -> bool
    ensures { result ≡ asked_value used.now name.now }
{
    (used.check_ready & is(name, b"check_ready"))
        | (used.refuse_const & is(name, b"refuse_const"))
        | (used.cell_make & is(name, b"cell_make"))
        | (used.to_text & is(name, b"to_text"))
        | (used.power & is(name, b"power"))
        | (used.template_object & is(name, b"template_object"))
}

#[tactic(auto, unfolding(emission_rules::specs::Primitives::helper_name, crate::specs::Wanted::asked_iteration))]
fn asked_iteration(used: &UsedPrimitives, name: &[u8]) -> bool
    ensures { result ≡ asked_iteration used.now name.now }
{
    (used.iter_start & is(name, b"iter_start"))
        | (used.iter_step & is(name, b"iter_step"))
        | (used.iter_value & is(name, b"iter_value"))
        | (used.iter_close & is(name, b"iter_close"))
        | (used.rest_list & is(name, b"rest_list"))
        | (used.spread_list & is(name, b"spread_list"))
        | (used.arguments_put & is(name, b"arguments_put"))
}

#[tactic(auto, unfolding(emission_rules::specs::Primitives::helper_name, crate::specs::Wanted::asked_class))]
fn asked_class(used: &UsedPrimitives, name: &[u8]) -> bool
    ensures { result ≡ asked_class used.now name.now }
{
    (used.construct & is(name, b"construct"))
        | (used.class_make & is(name, b"class_make"))
        | (used.class_guard & is(name, b"class_guard"))
        | (used.new_target & is(name, b"new_target"))
        | (used.super_construct & is(name, b"super_construct"))
        | (used.this_bind & is(name, b"this_bind"))
        | (used.super_get & is(name, b"super_get"))
}

#[tactic(auto, unfolding(emission_rules::specs::Primitives::helper_name, crate::specs::Wanted::asked_object))]
fn asked_object(used: &UsedPrimitives, name: &[u8]) -> bool
    ensures { result ≡ asked_object used.now name.now }
{
    (used.method_put & is(name, b"method_put"))
        | (used.accessor_put & is(name, b"accessor_put"))
        | (used.namespace_make & is(name, b"namespace_make"))
        | (used.includes_put & is(name, b"includes_put"))
}

/// The function of a generator is made by a call, too.
#[tactic(auto, unfolding(emission_rules::specs::Primitives::helper_name, crate::specs::Wanted::asked_generator))]
fn asked_generator(used: &UsedPrimitives, name: &[u8]) -> bool
    ensures { result ≡ asked_generator used.now name.now }
{
    (used.generator_make & is(name, b"generator_make"))
        | (used.generator_make & is(name, b"generator_function"))
        | (used.generator_resume & is(name, b"generator_resume"))
        | (used.delegate_step & is(name, b"delegate_step"))
}

/// Whether the script calls what has this name.
#[tactic(auto, unfolding(crate::specs::Wanted::asked))]
pub fn is_asked(used: &UsedPrimitives, name: &[u8]) -> bool
    ensures { result ≡ asked used.now name.now }
{
    asked_value(used, name)
        | asked_iteration(used, name)
        | asked_class(used, name)
        | asked_object(used, name)
        | asked_generator(used, name)
}
