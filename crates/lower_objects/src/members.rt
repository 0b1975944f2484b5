//! Members (ECMA-262, 6th edition, 12.2.6.8 and 14.3.9).

ghost use Rattle.std.specs.Prelude.{◌≡◌, [], ◌∷◌, ◌++◌, None, IfOk, OnOk};
ghost use Rattle.core_ast.specs.Made.{linked};
ghost use Rattle.core_ast.specs.declared.parts.CoreOp.TheVariants as op;
ghost use Rattle.core_ast.specs.declared.tree.CoreLink.TheVariants as link;
ghost use Rattle.lowering_rules.specs.Classes.{put};
ghost use Rattle.lowering_rules.specs.Making.{flag};
ghost use Rattle.lowering_rules.specs.declared.reference_rules.objects.ObjectMember.TheVariants.{Valued};
ghost use Rattle.lowering_rules.specs.reference_rules.Objects.{defining, key_part, member_put, putting};

use core_ast::{
    CoreExpr, CoreHead, CoreLink, CoreOp, FunctionId, Primitive, Var, acting, expression, linked,
    variable,
};
use lower_parts::{flag, text, to_text};
use lowering_rules::MemberKind;
use lowering_rules::reference_rules::{ObjectKey, ObjectMember};
use sqlite_items::Items;
use std::alloc::{AllocError, Global};

#[tactic(auto, unfolding(lowering_rules::specs::reference_rules::Objects::key_part))]
fn key_part(alloc: Global, key: ObjectKey) -> Result<CoreExpr, AllocError>
    ensures { IfOk result (λ x. x ≡ key_part key) }
{
    match key {
        ObjectKey::Written { text: units, .. } => Ok(text(alloc, units)),
        ObjectKey::Evaluated(value) => to_text(alloc, value),
    }
}

/// A value is put by the primitive, which is handed a truth value besides.
fn put_by(
    alloc: Global,
    object: CoreExpr,
    primitive: Primitive,
    key: CoreExpr,
    value: CoreExpr,
    marked: bool,
) -> Result<CoreExpr, AllocError>
    ensures { IfOk result (λ x. x ≡ linked object (link.Strict (op.Primitive primitive) (key ∷ value ∷ flag marked ∷ []) None)) }
{
    let mut parts = Items::new(alloc);
    parts.push(key)?;
    parts.push(value)?;
    parts.push(flag(alloc, marked))?;
    let op = CoreOp::Primitive(primitive);
    let site = None;
    linked(object, CoreLink::Strict { op, parts, site })
}

#[tactic(auto, unfolding(lowering_rules::specs::Classes::put))]
fn function_put(
    alloc: Global,
    kind: MemberKind,
    key: CoreExpr,
    function: FunctionId,
    object: CoreExpr,
) -> Result<CoreExpr, AllocError>
    ensures { IfOk result (λ x. x ≡ put kind key function object) }
{
    let value = expression(alloc, CoreHead::Function(function));
    match kind {
        MemberKind::Method => put_by(alloc, object, Primitive::MethodPut, key, value, true),
        MemberKind::Getter => put_by(alloc, object, Primitive::AccessorPut, key, value, false),
        MemberKind::Setter => put_by(alloc, object, Primitive::AccessorPut, key, value, true),
    }
}

#[tactic(auto, unfolding(lowering_rules::specs::reference_rules::Objects::member_put))]
fn member_put(alloc: Global, object: CoreExpr, member: ObjectMember) -> Result<CoreExpr, AllocError>
    ensures { IfOk result (λ x. x ≡ member_put object member) }
{
    match member {
        ObjectMember::Valued { key, value } => {
            let key = key_part(alloc, key)?;
            put_by(alloc, object, Primitive::MethodPut, key, value, false)
        }
        ObjectMember::Defined {
            key,
            kind,
            function,
        } => {
            let key = key_part(alloc, key)?;
            function_put(alloc, kind, key, function, object)
        }
    }
}

/// The member is put on the object that the variable keeps.
pub(crate) fn putting(
    alloc: Global,
    kept: Var,
    member: ObjectMember,
) -> Result<CoreLink, AllocError>
    ensures { IfOk result (λ l. l ≡ putting kept member) }
{
    let put = member_put(alloc, variable(alloc, kept), member)?;
    acting(alloc, CoreOp::Then, put)
}

#[tactic(auto, unfolding(lowering_rules::specs::reference_rules::Objects::defining))]
fn push_valued(
    alloc: Global,
    key: ObjectKey,
    value: CoreExpr,
    out: &mut Items<CoreLink>,
) -> Result<(), AllocError>
    ensures { OnOk result (out.new ≡ out.old ++ defining (Valued key value)) }
{
    match key {
        ObjectKey::Written { key, .. } => out.push(acting(alloc, CoreOp::Define(key), value)?),
        ObjectKey::Evaluated(_) => Ok(()),
    }
}

/// The member of a literal.
#[tactic(auto, unfolding(lowering_rules::specs::reference_rules::Objects::defining))]
pub(crate) fn push_defining(
    alloc: Global,
    member: ObjectMember,
    out: &mut Items<CoreLink>,
) -> Result<(), AllocError>
    ensures { OnOk result (out.new ≡ out.old ++ defining member) }
{
    match member {
        ObjectMember::Valued { key, value } => push_valued(alloc, key, value, out),
        ObjectMember::Defined { .. } => Ok(()),
    }
}
