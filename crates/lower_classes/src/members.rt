//! Members of classes (ECMA-262, 6th edition, 14.3.9).

ghost use Rattle.std.specs.Prelude.{◌≡◌, [], ◌∷◌, ◌++◌, None, IfOk, OnOk};
ghost use Rattle.core_ast.specs.Made.{linked};
ghost use Rattle.core_ast.specs.declared.parts.CoreOp.TheVariants as op;
ghost use Rattle.core_ast.specs.declared.tree.CoreLink.TheVariants as link;
ghost use Rattle.lowering_rules.specs.Classes.{closure, home, key_kept, key_of, member, put};
ghost use Rattle.lowering_rules.specs.Making.{flag, set, to_text};

use core_ast::{
    CoreExpr, CoreHead, CoreLink, CoreOp, CoreStat, FunctionId, Primitive, Var, expression, linked,
    variable,
};
use lower_parts::{alone, flag, set, text, to_text};
use lowering_rules::{ClassKey, ClassMember, ClassNames, MemberKind};
use sqlite_items::Items;
use std::alloc::{AllocError, Global};

/// A key: the statements that keep it, and the key.
#[derive(Drop)]
struct Kept {
    before: Items<CoreStat>,
    key: CoreExpr,
}

fn computed(alloc: Global, kept: Var, key: CoreExpr) -> Result<Items<CoreStat>, AllocError>
    ensures { IfOk result (λ ss. ss ≡ set kept (to_text key) ∷ []) }
{
    let key = to_text(alloc, key)?;
    alone(alloc, set(alloc, kept, key)?)
}

#[tactic(auto, unfolding(lowering_rules::specs::Classes::key_kept, lowering_rules::specs::Classes::key_of))]
fn key_found(alloc: Global, key: ClassKey) -> Result<Kept, AllocError>
    ensures { IfOk result (λ k. k ≡ record { before = key_kept key; key = key_of key }) }
{
    match key {
        ClassKey::TextName(units) => Ok(Kept {
            before: Items::new(alloc),
            key: text(alloc, units),
        }),
        ClassKey::ComputedName { kept, key } => Ok(Kept {
            before: computed(alloc, kept, key)?,
            key: variable(alloc, kept),
        }),
    }
}

/// The closure of the function.
pub(crate) fn closure(alloc: Global, function: FunctionId) -> CoreExpr
    ensures { result ≡ closure function }
{
    expression(alloc, CoreHead::Function(function))
}

fn put_by(
    alloc: Global,
    object: CoreExpr,
    primitive: Primitive,
    key: CoreExpr,
    function: FunctionId,
    marked: bool,
) -> Result<CoreExpr, AllocError>
    ensures { IfOk result (λ x. x ≡ linked object (link.Strict (op.Primitive primitive) (key ∷ closure function ∷ flag marked ∷ []) None)) }
{
    let mut parts = Items::new(alloc);
    parts.push(key)?;
    parts.push(closure(alloc, function))?;
    parts.push(flag(alloc, marked))?;
    let op = CoreOp::Primitive(primitive);
    let site = None;
    linked(object, CoreLink::Strict { op, parts, site })
}

#[tactic(auto, unfolding(lowering_rules::specs::Classes::put))]
fn put(
    alloc: Global,
    kind: MemberKind,
    key: CoreExpr,
    function: FunctionId,
    object: CoreExpr,
) -> Result<CoreExpr, AllocError>
    ensures { IfOk result (λ x. x ≡ put kind key function object) }
{
    match kind {
        MemberKind::Method => put_by(alloc, object, Primitive::MethodPut, key, function, true),
        MemberKind::Getter => put_by(alloc, object, Primitive::AccessorPut, key, function, false),
        MemberKind::Setter => put_by(alloc, object, Primitive::AccessorPut, key, function, true),
    }
}

fn home(names: ClassNames, is_static: bool) -> Var
    ensures { result ≡ home names is_static }
{
    if is_static {
        return names.class;
    }
    names.prototype
}

/// The member goes to the class or to its prototype.
pub(crate) fn push_member(
    alloc: Global,
    names: ClassNames,
    one: ClassMember,
    out: &mut Items<CoreStat>,
) -> Result<(), AllocError>
    ensures { OnOk result (out.new ≡ out.old ++ member names one) }
{
    let object = variable(alloc, home(names, one.is_static));
    let Kept { before, key } = key_found(alloc, one.key)?;
    out.append(before)?;
    let put = put(alloc, one.kind, key, one.function, object)?;
    out.push(CoreStat::Do(put))
}
