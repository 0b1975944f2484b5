//! Members of classes (ECMA-262, 6th edition, 14.5.14, steps 20 and 21).

ghost use Rattle.std.specs.Prelude.{[], ◌∷◌, map};
ghost use Rattle.lower_functions.specs.Parameters.{Changes};
ghost use Rattle.lower_walk.specs.Handed.{done_at, HasExpressions, HasFunctions, LowersItems};
ghost use Rattle.module_lowering.specs.Classes.{further_member, member_lowered};
ghost use Rattle.module_lowering.specs.Lowered.{class_member_lowered};
ghost use Rattle.module_lowering.specs.Lowering.{all_by, all_by_onto, Lowers};

use crate::constructors::is_constructor;
use crate::walk::Walk;
use core_ast::FunctionId;
use es6_ast::{ClassMember as MemberNode, Expression, Function};
use lower_walk::lower_items::lower_class_key;
use lower_walk::{Around, member_form, member_kind};
use lowering_rules::ClassMember;
use lowering_rules::reference_rules::Reached;
use module_lowering::{FunctionForm, Lowerer};
use std::alloc::AllocError;

impl<
    E: Fn(Around, &Expression, &mut Lowerer) -> Result<Reached, AllocError>,
    P,
    S,
    F: Fn(Around, &Function, FunctionForm, &mut Lowerer) -> Result<FunctionId, AllocError>,
> Walk<'_, E, P, S, F> {
    /// A member that is no constructor.
    #[tactic(auto, using(lower_walk::proofs::Layers::class_member_out, lower_walk::proofs::Layers::method_out))]
    fn member(&self, member: &MemberNode, state: &mut Lowerer) -> Result<ClassMember, AllocError>
        requires expressions { HasExpressions E.pre E.post self.now.here }
        requires functions { HasFunctions F.pre F.post self.now.here }
        ensures { Lowers (done_at self.now.here.around (member_lowered (class_member_lowered member.now)) state.old) result state.new }
    {
        let method = &member.method;
        let key = lower_class_key(&self.here, &method.key, state)?;
        let function = self.function_of_member(member, member_form(method.kind), state)?;
        Ok(ClassMember {
            is_static: member.is_static,
            kind: member_kind(method.kind),
            key,
            function,
        })
    }

    /// The member, unless it is the constructor.
    fn push_further(
        &self,
        member: &MemberNode,
        out: &mut Vec<ClassMember>,
        state: &mut Lowerer,
    ) -> Result<(), AllocError>
        requires expressions { HasExpressions E.pre E.post self.now.here }
        requires functions { HasFunctions F.pre F.post self.now.here }
        ensures { Changes (done_at self.now.here.around (all_by_onto further_member out.old.items (class_member_lowered member.now ∷ [])) state.old) result out.new.items state.new }
    {
        if is_constructor(self.here.around.alloc, member)? {
            return Ok(());
        }
        let made = self.member(member, state)?;
        out.push(made)?;
        Ok(())
    }

    /// The members but the constructor.
    pub fn further_members(
        &self,
        members: &[MemberNode],
        state: &mut Lowerer,
    ) -> Result<Vec<ClassMember>, AllocError>
        requires expressions { HasExpressions E.pre E.post self.now.here }
        requires functions { HasFunctions F.pre F.post self.now.here }
        ensures { LowersItems (done_at self.now.here.around (all_by further_member (map class_member_lowered members.now)) state.old) result state.new }
    {
        let mut made = Vec::new(self.here.around.alloc);
        for member in members {
            self.push_further(member, &mut made, state)?;
        }
        Ok(made)
    }
}
