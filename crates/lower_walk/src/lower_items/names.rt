//! Property names in patterns and classes (ECMA-262, 6th edition, 12.2.6, 13.3.3 and 14.5). One that is evaluated is kept as a key in
//! a temporary.

ghost use Rattle.lower_walk.specs.Handed.{done_at, HasExpressions};
ghost use Rattle.module_lowering.specs.Classes.{class_key, class_key_of};
ghost use Rattle.module_lowering.specs.Lowered.{expression_lowered, key_lowered};
ghost use Rattle.module_lowering.specs.Lowering.{Lowers};
ghost use Rattle.module_lowering.specs.Nodes.{BracketKey};
ghost use Rattle.module_lowering.specs.Patterns.{property_name, property_of};
ghost use Rattle.lowering_rules.specs.reference_rules.Drawing.{Makes};

use crate::{Around, Here, iterator_text, written_key, written_text};
use es6_ast::{Expression, Key};
use lowering_rules::reference_rules::{MemberName, Reached};
use lowering_rules::{ClassKey, Names, PropertyName};
use module_lowering::Lowerer;
use shared_text::Units;
use std::alloc::{AllocError, Global};

fn property_of(name: MemberName, names: &mut Names) -> Result<PropertyName, AllocError>
    ensures { Makes result names.new (property_of name names.old) }
{
    match name {
        MemberName::Named(key) => Ok(PropertyName::Literal(key)),
        MemberName::Indexed(key) => Ok(PropertyName::Computed {
            kept: names.temporary()?,
            key,
        }),
        MemberName::AtIterator => Ok(PropertyName::Iterator),
    }
}

/// A property name in brackets.
fn bracketed_name<E: Fn(Around, &Expression, &mut Lowerer) -> Result<Reached, AllocError>, P, S, F>(
    here: &Here<'_, E, P, S, F>,
    value: &Expression,
    state: &mut Lowerer,
) -> Result<PropertyName, AllocError>
    requires expressions { HasExpressions E.pre E.post here.now }
    ensures { Lowers (done_at here.now.around (property_name (BracketKey (expression_lowered value.now))) state.old) result state.new }
{
    let name = here.indexed(value, state)?;
    property_of(name, &mut state.names)
}

/// The name of a property of a pattern.
#[tactic(auto, unfolding(module_lowering::specs::Lowered::expression_lowered, module_lowering::specs::Lowered::key_lowered))]
pub fn lower_property_name<
    E: Fn(Around, &Expression, &mut Lowerer) -> Result<Reached, AllocError>,
    P,
    S,
    F,
>(here: &Here<'_, E, P, S, F>, key: &Key, state: &mut Lowerer) -> Result<PropertyName, AllocError>
    requires expressions { HasExpressions E.pre E.post here.now }
    ensures { Lowers (done_at here.now.around (property_name (key_lowered key.now)) state.old) result state.new }
{
    match key {
        Key::ComputedKey { value, .. } => bracketed_name(here, value.get(), state),
        Key::WordKey { .. } | Key::TextKey { .. } | Key::IntegerKey { .. } => {
            Ok(PropertyName::Literal(written_key(here.around.alloc, key)?))
        }
    }
}

fn class_key_of(alloc: Global, name: MemberName, names: &mut Names) -> Result<ClassKey, AllocError>
    ensures { Makes result names.new (class_key_of name names.old) }
{
    match name {
        MemberName::Named(_) => Ok(ClassKey::TextName(Units::of_units(Vec::new(alloc)))),
        MemberName::Indexed(key) => Ok(ClassKey::ComputedName {
            kept: names.temporary()?,
            key,
        }),
        MemberName::AtIterator => Ok(ClassKey::TextName(iterator_text(alloc)?)),
    }
}

/// The name of a member of a class in brackets.
fn bracketed_class_key<
    E: Fn(Around, &Expression, &mut Lowerer) -> Result<Reached, AllocError>,
    P,
    S,
    F,
>(
    here: &Here<'_, E, P, S, F>,
    value: &Expression,
    state: &mut Lowerer,
) -> Result<ClassKey, AllocError>
    requires expressions { HasExpressions E.pre E.post here.now }
    ensures { Lowers (done_at here.now.around (class_key (BracketKey (expression_lowered value.now))) state.old) result state.new }
{
    let name = here.indexed(value, state)?;
    class_key_of(here.around.alloc, name, &mut state.names)
}

/// The name of a member of a class.
#[tactic(auto, unfolding(module_lowering::specs::Lowered::expression_lowered, module_lowering::specs::Lowered::key_lowered))]
pub fn lower_class_key<
    E: Fn(Around, &Expression, &mut Lowerer) -> Result<Reached, AllocError>,
    P,
    S,
    F,
>(here: &Here<'_, E, P, S, F>, key: &Key, state: &mut Lowerer) -> Result<ClassKey, AllocError>
    requires expressions { HasExpressions E.pre E.post here.now }
    ensures { Lowers (done_at here.now.around (class_key (key_lowered key.now)) state.old) result state.new }
{
    match key {
        Key::ComputedKey { value, .. } => bracketed_class_key(here, value.get(), state),
        Key::WordKey { .. } | Key::TextKey { .. } | Key::IntegerKey { .. } => {
            Ok(ClassKey::TextName(written_text(here.around.alloc, key)?))
        }
    }
}
