//! Classes (ECMA-262, 6th edition, 14.5.14).

ghost use Rattle.std.specs.Prelude.{◌≡◌, map, IfOk};
ghost use Rattle.std.specs.Option.{option_map};
ghost use Rattle.lower_functions.specs.Classes.{class_names, class_parts_made, class_pieces};
ghost use Rattle.lower_walk.specs.Handed.{done_at, HasExpressions, HasFunctions, LowersAs};
ghost use Rattle.module_lowering.specs.Classes.{class_made, inner_of};
ghost use Rattle.module_lowering.specs.Lowered.{class_lowered, class_member_lowered, expression_lowered};
ghost use Rattle.module_lowering.specs.Lowering.{Lowers};

use crate::walk::Walk;
use core_ast::{CoreExpr, CoreStat, FunctionId, ScopedName, Var};
use es6_ast::{Class, ClassMember as MemberNode, Expression, Function, Identifier};
use lower_classes::lower_class;
use lower_walk::{Around, Here};
use lowering_rules::reference_rules::Reached;
use lowering_rules::{ClassMember, ClassNames};
use module_lowering::{FunctionForm, Lowerer};
use sqlite_items::{Boxed, Items};
use std::alloc::AllocError;
use std::marker::Model;

/// A class: the variable that keeps it, and the statements that define it.
#[derive(Drop)]
pub struct ClassParts {
    pub class: Var,
    pub statements: Items<CoreStat>,
}

/// What a class is made of.
#[derive(Drop)]
struct Pieces {
    heritage: Option<CoreExpr>,
    constructor: FunctionId,
    members: Vec<ClassMember>,
}

impl Model for Pieces {
    ghost use Rattle.std.specs.Coded.{codes};
    ghost use Rattle.core_ast.specs.contracts.tree.CoreExpr as expression;
    ghost use Rattle.core_ast.specs.contracts.tree.CoreStat as statement;
    ghost use Rattle.lower_functions.specs.Pieces.{PiecesMade};

    ghost Value = { PiecesMade };

    ghost coded = { Prim.hlevel (codes, expression.the_row.coded, statement.the_row.coded) };

    ghost view = { λ p. record { heritage = p.heritage; constructor = p.constructor; members = p.members.items } };
}

impl<E, P, S, F> Walk<'_, E, P, S, F> {
    /// The variables that keep a class and its prototype.
    fn class_names(&self, state: &mut Lowerer) -> Result<ClassNames, AllocError>
        ensures { Lowers (done_at self.now.here.around class_names state.old) result state.new }
    {
        let class = self.here.temporary(state)?;
        let prototype = self.here.temporary(state)?;
        Ok(ClassNames { class, prototype })
    }

    /// The name that a class has inside itself.
    fn inner_of(&self, name: &Option<Identifier>) -> Result<Option<ScopedName>, AllocError>
        ensures { IfOk result (λ n. n ≡ inner_of name.now self.now.here.around.bindings.now self.now.here.around.context.now) }
    {
        let around = self.here.around;
        match name {
            None => Ok(None),
            Some(name) => Ok(Some(around.bindings.inner_name(around.context, name.span.begin)?)),
        }
    }

    /// The class of these pieces.
    fn class_made(
        &self,
        names: ClassNames,
        name: &Option<Identifier>,
        pieces: Pieces,
    ) -> Result<ClassParts, AllocError>
        ensures { IfOk result (λ c. class_parts_made c ≡ class_made names (inner_of name.now self.now.here.around.bindings.now self.now.here.around.context.now) pieces.heritage pieces.constructor pieces.members) }
    {
        let inner = self.inner_of(name)?;
        let Pieces {
            heritage,
            constructor,
            members,
        } = pieces;
        let alloc = self.here.around.alloc;
        let statements = lower_class(alloc, names, inner, heritage, constructor, members)?;
        Ok(ClassParts {
            class: names.class,
            statements,
        })
    }
}

impl<
    E: Fn(Around, &Expression, &mut Lowerer) -> Result<Reached, AllocError>,
    P,
    S,
    F: Fn(Around, &Function, FunctionForm, &mut Lowerer) -> Result<FunctionId, AllocError>,
> Walk<'_, E, P, S, F> {
    /// The heritage, the constructor, and the other members.
    fn class_pieces(
        &self,
        heritage: &Option<Boxed<Expression>>,
        members: &[MemberNode],
        state: &mut Lowerer,
    ) -> Result<Pieces, AllocError>
        requires expressions { HasExpressions E.pre E.post self.now.here }
        requires functions { HasFunctions F.pre F.post self.now.here }
        ensures { Lowers (done_at self.now.here.around (class_pieces (option_map expression_lowered heritage.now) (map class_member_lowered members.now)) state.old) result state.new }
    {
        let derived = heritage.is_some();
        let heritage = self.here.optional(heritage, state)?;
        let constructor = self.constructor_of(derived, members, state)?;
        let members = self.further_members(members, state)?;
        Ok(Pieces {
            heritage,
            constructor,
            members,
        })
    }

    #[tactic(auto, using(lower_walk::proofs::Layers::class_out))]
    fn class(&self, class: &Class, state: &mut Lowerer) -> Result<ClassParts, AllocError>
        requires expressions { HasExpressions E.pre E.post self.now.here }
        requires functions { HasFunctions F.pre F.post self.now.here }
        ensures { LowersAs class_parts_made (done_at self.now.here.around (class_lowered class.now).lowered state.old) result state.new }
    {
        let names = self.class_names(state)?;
        let pieces = self.class_pieces(&class.heritage, class.members.as_slice(), state)?;
        self.class_made(names, &class.name, pieces)
    }
}

/// A class: the variable that keeps it, and the statements that define it.
pub fn lower_class_definition<
    E: Fn(Around, &Expression, &mut Lowerer) -> Result<Reached, AllocError>,
    P,
    S,
    F: Fn(Around, &Function, FunctionForm, &mut Lowerer) -> Result<FunctionId, AllocError>,
>(here: &Here<'_, E, P, S, F>, class: &Class, state: &mut Lowerer) -> Result<ClassParts, AllocError>
    requires expressions { HasExpressions E.pre E.post here.now }
    requires functions { HasFunctions F.pre F.post here.now }
    ensures { LowersAs class_parts_made (done_at here.now.around (class_lowered class.now).lowered state.old) result state.new }
{
    Walk { here: *here }.class(class, state)
}
