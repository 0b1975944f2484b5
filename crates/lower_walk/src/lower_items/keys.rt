//! Property names of object literals (ECMA-262, 6th edition, 12.2.6).

ghost use Rattle.std.specs.Prelude.{◌≡◌, IfOk};
ghost use Rattle.core_ast.specs.declared.parts.Key.TheVariants.{TextKey};
ghost use Rattle.lower_walk.specs.Handed.{done_at, HasExpressions};
ghost use Rattle.lower_walk.specs.Keys.{key_in, units_in};
ghost use Rattle.lowering_rules.specs.Patterns.{iterator_name};
ghost use Rattle.module_lowering.specs.Lowered.{expression_lowered, key_lowered};
ghost use Rattle.module_lowering.specs.Lowering.{Lowers};
ghost use Rattle.module_lowering.specs.Nodes.{BracketKey};
ghost use Rattle.module_lowering.specs.Patterns.{object_key, object_key_of};
ghost use Rattle.lowering_rules.specs.declared.reference_rules.objects.ObjectKey.TheVariants.{Written};

use crate::{Around, Here, iterator_text, written_key, written_text};
use core_ast::Key as CoreKey;
use es6_ast::{Expression, Key};
use lowering_rules::reference_rules::{MemberName, ObjectKey, Reached};
use module_lowering::Lowerer;
use shared_text::Units;
use std::alloc::{AllocError, Global};

fn iterator_key(alloc: Global) -> Result<ObjectKey, AllocError>
    ensures { IfOk result (λ k. k ≡ Written (TextKey iterator_name) iterator_name) }
{
    let key = CoreKey::TextKey(iterator_text(alloc)?);
    let text = iterator_text(alloc)?;
    Ok(ObjectKey::Written { key, text })
}

#[tactic(auto, unfolding(module_lowering::specs::Patterns::object_key_of))]
fn object_key_of(alloc: Global, name: MemberName) -> Result<ObjectKey, AllocError>
    ensures { IfOk result (λ k. k ≡ object_key_of name) }
{
    match name {
        MemberName::Named(key) => {
            let text = Units::of_units(Vec::new(alloc));
            Ok(ObjectKey::Written { key, text })
        }
        MemberName::Indexed(key) => Ok(ObjectKey::Evaluated(key)),
        MemberName::AtIterator => iterator_key(alloc),
    }
}

/// A property name in brackets.
fn bracketed_key<E: Fn(Around, &Expression, &mut Lowerer) -> Result<Reached, AllocError>, P, S, F>(
    here: &Here<'_, E, P, S, F>,
    value: &Expression,
    state: &mut Lowerer,
) -> Result<ObjectKey, AllocError>
    requires expressions { HasExpressions E.pre E.post here.now }
    ensures { Lowers (done_at here.now.around (object_key (BracketKey (expression_lowered value.now))) state.old) result state.new }
{
    let name = here.indexed(value, state)?;
    object_key_of(here.around.alloc, name)
}

/// A property name as it is written, which isn't in brackets.
fn plain_key(alloc: Global, key: &Key) -> Result<ObjectKey, AllocError>
    ensures { IfOk result (λ k. k ≡ Written (key_in (key_lowered key.now)) (units_in (key_lowered key.now))) }
{
    let text = written_text(alloc, key)?;
    let key = written_key(alloc, key)?;
    Ok(ObjectKey::Written { key, text })
}

/// The name of a member.
#[tactic(auto, unfolding(module_lowering::specs::Lowered::expression_lowered, module_lowering::specs::Lowered::key_lowered))]
pub(crate) fn lower_object_key<
    E: Fn(Around, &Expression, &mut Lowerer) -> Result<Reached, AllocError>,
    P,
    S,
    F,
>(here: &Here<'_, E, P, S, F>, key: &Key, state: &mut Lowerer) -> Result<ObjectKey, AllocError>
    requires expressions { HasExpressions E.pre E.post here.now }
    ensures { Lowers (done_at here.now.around (object_key (key_lowered key.now)) state.old) result state.new }
{
    match key {
        Key::ComputedKey { value, .. } => bracketed_key(here, value.get(), state),
        Key::WordKey { .. } | Key::TextKey { .. } | Key::IntegerKey { .. } => {
            plain_key(here.around.alloc, key)
        }
    }
}
