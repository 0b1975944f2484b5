//! Classes (ECMA-262, 6th edition, 14.5.14).

ghost use Rattle.std.specs.Prelude.{◌≡◌, [], ◌∷◌, ◌++◌, None, IfOk};
ghost use Rattle.core_ast.specs.declared.parts.CoreOp.TheVariants as op;
ghost use Rattle.core_ast.specs.declared.parts.Primitive.TheVariants.{ClassMake};
ghost use Rattle.core_ast.specs.declared.tree.CoreLink.TheVariants as link;
ghost use Rattle.core_ast.specs.Made.{linked, variable};
ghost use Rattle.core_ast.specs.declared.tree.CoreStat.TheVariants as stat;
ghost use Rattle.lowering_rules.specs.Classes.{class_statements, closure, defined, made, prototype};
ghost use Rattle.lowering_rules.specs.Making.{flag, initialize, set};

use crate::members::{closure, push_member};
use core_ast::{
    CoreExpr, CoreLink, CoreOp, CoreStat, FunctionId, Key, Primitive, ScopedName, act, linked,
    undefined, variable,
};
use lower_parts::{alone, flag, initialize, set};
use lowering_rules::{ClassMember, ClassNames};
use shared_text::Name;
use sqlite_items::Items;
use std::alloc::{AllocError, Global};
use std::collections::VecDeque;

fn made_of(
    alloc: Global,
    derived: bool,
    heritage: CoreExpr,
    function: FunctionId,
) -> Result<CoreExpr, AllocError>
    ensures { IfOk result (λ x. x ≡ linked (flag derived) (link.Strict (op.Primitive ClassMake) (heritage ∷ closure function ∷ []) None)) }
{
    let mut parts = Items::new(alloc);
    parts.push(heritage)?;
    parts.push(closure(alloc, function))?;
    let op = CoreOp::Primitive(Primitive::ClassMake);
    let site = None;
    linked(flag(alloc, derived), CoreLink::Strict { op, parts, site })
}

#[tactic(auto, unfolding(lowering_rules::specs::Classes::made))]
fn made(
    alloc: Global,
    heritage: Option<CoreExpr>,
    function: FunctionId,
) -> Result<CoreExpr, AllocError>
    ensures { IfOk result (λ x. x ≡ made heritage function) }
{
    match heritage {
        Some(heritage) => made_of(alloc, true, heritage, function),
        None => made_of(alloc, false, undefined(alloc), function),
    }
}

fn prototype(alloc: Global, names: ClassNames) -> Result<CoreStat, AllocError>
    ensures { IfOk result (λ s. s ≡ prototype names) }
{
    let key = Key::WordKey(Name::of_bytes(alloc, b"prototype")?);
    let read = linked(
        variable(alloc, names.class),
        act(alloc, CoreOp::Member(key)),
    )?;
    set(alloc, names.prototype, read)
}

/// The class and its `prototype` are made and kept.
fn begun(
    alloc: Global,
    names: ClassNames,
    heritage: Option<CoreExpr>,
    function: FunctionId,
) -> Result<Items<CoreStat>, AllocError>
    ensures { IfOk result (λ ss. ss ≡ set names.class (made heritage function) ∷ prototype names ∷ []) }
{
    let made = made(alloc, heritage, function)?;
    let mut out = alone(alloc, set(alloc, names.class, made)?)?;
    out.push(prototype(alloc, names)?)?;
    Ok(out)
}

fn defined(
    alloc: Global,
    names: ClassNames,
    heritage: Option<CoreExpr>,
    function: FunctionId,
    members: Vec<ClassMember>,
) -> Result<Items<CoreStat>, AllocError>
    ensures { IfOk result (λ ss. ss ≡ defined names heritage function members.items) }
{
    let mut out = begun(alloc, names, heritage, function)?;
    let mut left = VecDeque::from_vec(members);
    while let Some(member) = left.pop_front() {
        push_member(alloc, names, member, &mut out)?;
    }
    Ok(out)
}

/// The statements in a scope of the inner name, which takes the class at last.
fn named(
    alloc: Global,
    names: ClassNames,
    name: ScopedName,
    body: Items<CoreStat>,
) -> Result<CoreStat, AllocError>
    ensures { IfOk result (λ s. s ≡ stat.Scoped (name ∷ []) (body ++ initialize name.var (variable names.class) ∷ [])) }
{
    let mut body = body;
    let value = variable(alloc, names.class);
    body.push(initialize(alloc, name.var, value)?)?;
    let names = Items::from_slice(alloc, &[name])?;
    Ok(CoreStat::Scoped { names, body })
}

/// The class: the heritage, the constructor, the members, and at last the inner name.
#[tactic(auto, unfolding(lowering_rules::specs::Classes::class_statements))]
pub fn lower_class(
    alloc: Global,
    names: ClassNames,
    inner: Option<ScopedName>,
    heritage: Option<CoreExpr>,
    constructor: FunctionId,
    members: Vec<ClassMember>,
) -> Result<Items<CoreStat>, AllocError>
    ensures { IfOk result (λ ss. ss ≡ class_statements names inner heritage constructor members.items) }
{
    let body = defined(alloc, names, heritage, constructor, members)?;
    match inner {
        Some(name) => alone(alloc, named(alloc, names, name, body)?),
        None => Ok(body),
    }
}
