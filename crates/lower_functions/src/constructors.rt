//! The constructors of classes (ECMA-262, 6th edition, 14.5.3 and 14.5.14).

ghost use Rattle.std.specs.Prelude.{◌≡◌, codes, map, nat_eq, IfOk};
ghost use Rattle.std.specs.Cmp.Lexicographic.{pointwise};
ghost use Rattle.lower_walk.specs.Handed.{done_at, HasFunctions};
ghost use Rattle.module_lowering.specs.Classes.{constructor_of, default_constructor, is_constructor, is_plain_method, is_written};
ghost use Rattle.module_lowering.specs.Lowered.{class_member_lowered, key_lowered};
ghost use Rattle.module_lowering.specs.Lowering.{Lowers};

use crate::forms::no_receiver;
use crate::walk::Walk;
use core_ast::{CoreFunction, CoreKind, FunctionId};
use es6_ast::{ClassMember, Function, Key, MethodKind};
use lower_bodies::begun;
use lower_classes::{default_body, lower_constructor};
use lower_walk::{Around, written_text};
use module_lowering::{FunctionForm, Lowerer};
use std::alloc::{AllocError, Global};

/// A constructor that isn't written. It passes its arguments on, where the class has a heritage (step 10).
#[tactic(auto, unfolding(lowering_rules::specs::statement_rules::Bodies::kept, lowering_rules::specs::statement_rules::Bodies::names_of))]
fn default_constructor(alloc: Global, derived: bool) -> Result<CoreFunction, AllocError>
    ensures { IfOk result (λ f. f ≡ default_constructor derived) }
{
    let mut function = begun(alloc, CoreKind::Class { derived }, no_receiver())?;
    function.body = default_body(alloc, derived)?;
    lower_constructor(alloc, derived, function)
}

fn is_plain_method(kind: MethodKind) -> bool
    ensures { result ≡ is_plain_method kind }
{
    match kind {
        MethodKind::PlainMethod => true,
        MethodKind::GetterMethod | MethodKind::SetterMethod | MethodKind::GeneratorMethod => false,
    }
}

/// Whether these are the units of the word `constructor`.
fn is_constructor_word(units: &[u16]) -> bool
    ensures { result ≡ pointwise nat_eq (codes "constructor") units.now }
{
    let word: &[u16] = &[99, 111, 110, 115, 116, 114, 117, 99, 116, 111, 114];
    word == units
}

/// Whether a key is the written word `constructor`.
#[tactic(auto, unfolding(module_lowering::specs::Lowered::key_lowered))]
fn is_written(alloc: Global, key: &Key) -> Result<bool, AllocError>
    ensures { IfOk result (λ b. b ≡ is_written (codes "constructor") (key_lowered key.now)) }
{
    match key {
        Key::ComputedKey { .. } => Ok(false),
        Key::WordKey { .. } | Key::TextKey { .. } | Key::IntegerKey { .. } => {
            let text = written_text(alloc, key)?;
            Ok(is_constructor_word(text.units()))
        }
    }
}

/// Whether a member of a class is its constructor.
#[tactic(auto, using(lower_walk::proofs::Layers::class_member_out, lower_walk::proofs::Layers::method_out))]
pub(crate) fn is_constructor(alloc: Global, member: &ClassMember) -> Result<bool, AllocError>
    ensures { IfOk result (λ b. b ≡ is_constructor (class_member_lowered member.now)) }
{
    if member.is_static {
        return Ok(false);
    }
    if !is_plain_method(member.method.kind) {
        return Ok(false);
    }
    is_written(alloc, &member.method.key)
}

impl<
    E,
    P,
    S,
    F: Fn(Around, &Function, FunctionForm, &mut Lowerer) -> Result<FunctionId, AllocError>,
> Walk<'_, E, P, S, F> {
    /// The function of a member.
    #[tactic(auto, using(lower_walk::proofs::Layers::class_member_out, lower_walk::proofs::Layers::method_out))]
    pub fn function_of_member(
        &self,
        member: &ClassMember,
        form: FunctionForm,
        state: &mut Lowerer,
    ) -> Result<FunctionId, AllocError>
        requires functions { HasFunctions F.pre F.post self.now.here }
        ensures { Lowers (done_at self.now.here.around ((class_member_lowered member.now).method.lowered form) state.old) result state.new }
    {
        self.here.made(member.method.function.get(), form, state)
    }

    /// The constructor of a class with these members.
    pub fn constructor_of(
        &self,
        derived: bool,
        members: &[ClassMember],
        state: &mut Lowerer,
    ) -> Result<FunctionId, AllocError>
        requires functions { HasFunctions F.pre F.post self.now.here }
        ensures { Lowers (done_at self.now.here.around (constructor_of derived (map class_member_lowered members.now)) state.old) result state.new }
    {
        let alloc = self.here.around.alloc;
        for member in members {
            if is_constructor(alloc, member)? {
                let form = FunctionForm::ConstructorForm { derived };
                return self.function_of_member(member, form, state);
            }
        }
        let function = default_constructor(alloc, derived)?;
        self.define(function, state)
    }
}
