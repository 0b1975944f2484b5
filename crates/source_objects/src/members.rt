//! Members in order: the name, and then the method, on the class or on its prototype (14.5.14, steps 20 to 23).

ghost use Rattle.std.specs.Prelude.{◌≡◌, OnOk};
ghost use Rattle.source_meaning.specs.Classes.{class_named, class_over, holder_of, member_defined, member_named, members_on, noted, noted_by};
ghost use Rattle.source_moves.specs.Moves.{Steps};
ghost use Rattle.source_moves.specs.Seen.{state_of};
ghost use Rattle.source_objects.specs.Definitions.{Defines, member_first};

use crate::definitions::Defined;
use crate::methods::define_method;
use es_heap::Key;
use es_value::{ObjId, Value};
use es6_ast::ClassMember;
use source_keys::{FoundKey, found_key};
use source_moves::{Move, Moved, PendingWork, begin, initialize};
use source_state::{BorrowedName, Defining, Members, Naming, Node, State, Static};
use std::alloc::{AllocError, Global};

/// A static member is noted.
fn noted<'a, W: PendingWork<'a>>(
    class: ObjId,
    key: Key,
    st: &mut State<'a, W>,
) -> Result<(), AllocError>
    ensures { OnOk result (state_of W.seen st.new ≡ noted class key (state_of W.seen st.old)) }
{
    st.statics.push(Static { class, key })
}

fn noted_by<'a, W: PendingWork<'a>>(
    is_static: bool,
    class: ObjId,
    key: Key,
    st: &mut State<'a, W>,
) -> Result<(), AllocError>
    ensures { OnOk result (state_of W.seen st.new ≡ noted_by is_static class key (state_of W.seen st.old)) }
{
    if is_static {
        noted(class, key, st)
    } else {
        Ok(())
    }
}

/// The object that a member is defined on.
fn holder_of(is_static: bool, defining: &Defining) -> ObjId
    ensures { result ≡ holder_of is_static defining.now }
{
    if is_static {
        defining.function
    } else {
        defining.prototype
    }
}

/// Defines a member.
fn define_member<'a, W: PendingWork<'a>>(
    alloc: Global,
    defining: &Defining<'a>,
    member: &'a ClassMember,
    key: Key,
    st: &mut State<'a, W>,
) -> Defined<'a>
    ensures { Defines W.seen result st.new (member_defined defining.now member.now key (state_of W.seen st.old)) }
{
    let holder = holder_of(member.is_static, defining);
    let name = key.share()?;
    match define_method(alloc, &member.method, holder, key, st)? {
        Some(end) => Ok(Some(end)),
        None => {
            noted_by(member.is_static, holder, name, st)?;
            Ok(None)
        }
    }
}

/// The inner name of a class gets its value (step 23).
fn class_named<'a, W: PendingWork<'a>>(
    alloc: Global,
    name: &Option<BorrowedName<'a>>,
    value: Value,
    st: &mut State<'a, W>,
)
    ensures { state_of W.seen st.new ≡ class_named name.now value (state_of W.seen st.old) }
{
    if let Some(name) = name {
        initialize(alloc, name.bytes(), value, st);
    }
}

/// A class is the value, behind its members.
fn class_over<'a, W: PendingWork<'a>>(
    alloc: Global,
    defining: &Defining<'a>,
    st: &mut State<'a, W>,
) -> Moved<'a>
    ensures { Steps W.seen result st.new (class_over defining.now (state_of W.seen st.old)) }
{
    let class = Value::Object(defining.function);
    class_named(alloc, &defining.name, class, st);
    Ok(Move::give(Value::Object(defining.function)))
}

/// What is known of a class whose members are defined, once more.
fn share_defining<'a>(defining: &Defining<'a>) -> Defining<'a>
    ensures { result ≡ defining.now }
{
    Defining {
        name: share_name(&defining.name),
        function: defining.function,
        prototype: defining.prototype,
    }
}

fn share_name<'a>(name: &Option<BorrowedName<'a>>) -> Option<BorrowedName<'a>>
    ensures { result ≡ name.now }
{
    match name {
        None => None,
        Some(name) => Some(name.share()),
    }
}

/// One member, before those that follow. A computed name is evaluated first.
#[tactic(auto, using(crate::proofs::Following::member_known, crate::proofs::Following::member_computed))]
fn one_member<'a, W: PendingWork<'a>>(
    alloc: Global,
    defining: &Defining<'a>,
    member: &'a ClassMember,
    behind: Members<'a>,
    st: &mut State<'a, W>,
) -> Defined<'a>
    ensures { Defines W.seen result st.new (member_first defining.now member.now behind.entry (state_of W.seen st.old)) }
{
    match found_key(alloc, &member.method.key, st)? {
        FoundKey::Known(key) => define_member(alloc, defining, member, key, st),
        FoundKey::Computed(name) => {
            let naming = Naming::OfMember(share_defining(defining), Node::of(member), behind);
            Ok(Some(begin(W::key_value(naming), name, st)?))
        }
    }
}

/// Defines the members that are left.
#[tactic(auto, using(crate::proofs::Following::member_done, crate::proofs::Following::member_ends))]
pub(crate) fn members_on<'a, W: PendingWork<'a>>(
    alloc: Global,
    defining: &Defining<'a>,
    members: Members<'a>,
    st: &mut State<'a, W>,
) -> Moved<'a>
    ensures { Steps W.seen result st.new (members_on defining.now members.entry (state_of W.seen st.old)) }
{
    let mut left = members;
    while let Some((member, behind)) = left.first() {
        if let Some(ended) = one_member(alloc, defining, member, behind.share(), st)? {
            return Ok(ended);
        }
        left = behind;
    }
    class_over(alloc, defining, st)
}

/// Defines a member whose computed name is there, and those that follow.
#[tactic(auto, using(crate::proofs::Following::named_done, crate::proofs::Following::named_ends))]
pub fn member_named<'a, W: PendingWork<'a>>(
    alloc: Global,
    defining: Defining<'a>,
    member: &'a ClassMember,
    members: Members<'a>,
    key: Key,
    st: &mut State<'a, W>,
) -> Moved<'a>
    ensures { Steps W.seen result st.new (member_named defining.entry member.now members.entry key (state_of W.seen st.old)) }
{
    match define_member(alloc, &defining, member, key, st)? {
        Some(ended) => Ok(ended),
        None => members_on(alloc, &defining, members, st),
    }
}
