//! Members of object literals (ECMA-262, 6th edition, 12.2.6.8 and 14.3.9).

ghost use Rattle.std.specs.Prelude.{◌≡◌, map, IfOk};
ghost use Rattle.core_ast.specs.declared.parts.Key.TheVariants.{WordKey};
ghost use Rattle.lower_walk.specs.Handed.{done_at, HasExpressions, HasFunctions, LowersItems};
ghost use Rattle.module_lowering.specs.Expressions.{valued};
ghost use Rattle.module_lowering.specs.Lowered.{expression_lowered, key_lowered, method_lowered, property_lowered};
ghost use Rattle.module_lowering.specs.Lowering.{each, Lowers};
ghost use Rattle.module_lowering.specs.Names.{units_of};
ghost use Rattle.module_lowering.specs.Patterns.{defined_member, name_valued, shorthand, valued_member};
ghost use Rattle.lowering_rules.specs.declared.reference_rules.objects.ObjectKey.TheVariants.{Written};

use crate::lower_items::keys::lower_object_key;
use crate::lower_names::units_of;
use crate::{Around, Here, member_form, member_kind};
use core_ast::{CoreExpr, FunctionId, Key as CoreKey};
use es_text::Span;
use es6_ast::{Expression, Function, Key, Method, Property};
use lower_references::value_of;
use lowering_rules::reference_rules::{ObjectKey, ObjectMember, Reached};
use module_lowering::{FunctionForm, Lowerer};
use shared_text::Name;
use std::alloc::{AllocError, Global};

/// `k: e`
fn plain<E: Fn(Around, &Expression, &mut Lowerer) -> Result<Reached, AllocError>, P, S, F>(
    here: &Here<'_, E, P, S, F>,
    key: &Key,
    value: &Expression,
    state: &mut Lowerer,
) -> Result<ObjectMember, AllocError>
    requires expressions { HasExpressions E.pre E.post here.now }
    ensures { Lowers (done_at here.now.around (valued_member (key_lowered key.now) (valued (expression_lowered value.now))) state.old) result state.new }
{
    let key = lower_object_key(here, key, state)?;
    let value = here.value(value, state)?;
    Ok(ObjectMember::Valued { key, value })
}

/// The value of a name.
fn name_value<E, P, S, F>(
    here: &Here<'_, E, P, S, F>,
    span: &Span,
    name: &Name,
    state: &mut Lowerer,
) -> Result<CoreExpr, AllocError>
    ensures { Lowers (done_at here.now.around (name_valued (record { span = span.now; name = name.now })) state.old) result state.new }
{
    let Around {
        alloc,
        bindings,
        context,
        ..
    } = here.around;
    let reached = bindings.lower_name(alloc, context, span.begin, name.bytes(), state)?;
    value_of(alloc, reached)
}

/// A name as a key.
fn name_key(alloc: Global, name: &Name) -> Result<ObjectKey, AllocError>
    ensures { IfOk result (λ k. k ≡ Written (WordKey name.now) (units_of name.now)) }
{
    let text = units_of(alloc, name.bytes())?;
    let key = CoreKey::WordKey(name.copy(alloc)?);
    Ok(ObjectKey::Written { key, text })
}

/// A name alone, which is the key of its value.
fn shorthand<E, P, S, F>(
    here: &Here<'_, E, P, S, F>,
    span: &Span,
    name: &Name,
    state: &mut Lowerer,
) -> Result<ObjectMember, AllocError>
    ensures { Lowers (done_at here.now.around (shorthand span.now name.now) state.old) result state.new }
{
    let key = name_key(here.around.alloc, name)?;
    let value = name_value(here, span, name, state)?;
    Ok(ObjectMember::Valued { key, value })
}

/// A method.
#[tactic(auto, using(crate::proofs::Layers::method_out))]
fn defined<
    E: Fn(Around, &Expression, &mut Lowerer) -> Result<Reached, AllocError>,
    P,
    S,
    F: Fn(Around, &Function, FunctionForm, &mut Lowerer) -> Result<FunctionId, AllocError>,
>(
    here: &Here<'_, E, P, S, F>,
    method: &Method,
    state: &mut Lowerer,
) -> Result<ObjectMember, AllocError>
    requires expressions { HasExpressions E.pre E.post here.now }
    requires functions { HasFunctions F.pre F.post here.now }
    ensures { Lowers (done_at here.now.around (defined_member (method_lowered method.now)) state.old) result state.new }
{
    let key = lower_object_key(here, &method.key, state)?;
    let function = here.made(method.function.get(), member_form(method.kind), state)?;
    let kind = member_kind(method.kind);
    Ok(ObjectMember::Defined {
        key,
        kind,
        function,
    })
}

#[tactic(auto, unfolding(module_lowering::specs::Lowered::expression_lowered, module_lowering::specs::Lowered::key_lowered, module_lowering::specs::Lowered::method_lowered, module_lowering::specs::Lowered::property_lowered))]
fn property<
    E: Fn(Around, &Expression, &mut Lowerer) -> Result<Reached, AllocError>,
    P,
    S,
    F: Fn(Around, &Function, FunctionForm, &mut Lowerer) -> Result<FunctionId, AllocError>,
>(
    here: &Here<'_, E, P, S, F>,
    property: &Property,
    state: &mut Lowerer,
) -> Result<ObjectMember, AllocError>
    requires expressions { HasExpressions E.pre E.post here.now }
    requires functions { HasFunctions F.pre F.post here.now }
    ensures { Lowers (done_at here.now.around (property_lowered property.now) state.old) result state.new }
{
    match property {
        Property::Plain { key, value, .. } => plain(here, key, value, state),
        Property::Shorthand { span, name } => shorthand(here, span, name, state),
        Property::Initialized { name, .. } => shorthand(here, &name.span, &name.name, state),
        Property::Defined(method) => defined(here, method, state),
    }
}

/// The members of an object literal, from left to right.
pub fn lower_properties<
    E: Fn(Around, &Expression, &mut Lowerer) -> Result<Reached, AllocError>,
    P,
    S,
    F: Fn(Around, &Function, FunctionForm, &mut Lowerer) -> Result<FunctionId, AllocError>,
>(
    here: &Here<'_, E, P, S, F>,
    properties: &[Property],
    state: &mut Lowerer,
) -> Result<Vec<ObjectMember>, AllocError>
    requires expressions { HasExpressions E.pre E.post here.now }
    requires functions { HasFunctions F.pre F.post here.now }
    ensures { LowersItems (done_at here.now.around (each (map property_lowered properties.now)) state.old) result state.new }
{
    let mut members = Vec::new(here.around.alloc);
    for one in properties {
        members.push(property(here, one, state)?)?;
    }
    Ok(members)
}
