//! The nodes of classes (ECMA-262, 6th edition, 14.5).

ghost use Rattle.std.specs.Prelude.{[], ◌++◌, ◌∷◌, ◌≡◌, IfOk, List, OnOk};
ghost use Rattle.es6_ast.specs.declared.tree.Class.{Class, roll-Class};
ghost use Rattle.es6_ast.specs.declared.tree.ClassMember.{ClassMember};
ghost use Rattle.es6_ast.specs.declared.tree.Expression.TheVariants as expr;
ghost use Rattle.es6_ast.specs.declared.tree.Statement.TheVariants as stat;
ghost use Rattle.es6_reading.specs.Expressions.{left};
ghost use Rattle.es6_reading.specs.Parts.{member_of};

use crate::functions::MakesMethods;
use crate::readings::MakesOptionals;
use es_text::Span;
use es6_ast::Identifier;
use std::alloc::{AllocError, Global};

/// Makes the members of classes.
pub trait MakesMembers: MakesMethods {
    type Member: Drop;

    type Members: Drop;

    ghost seen_member: { Self.Member → ClassMember };

    ghost seen_members: { Self.Members → List ClassMember };

    /// 14.5
    fn member(span: Span, is_static: bool, method: Self::Method) -> Self::Member
        ensures { Self.seen_member result ≡ member_of is_static (Self.seen_method method) span };

    fn no_members(alloc: Global) -> Self::Members
        ensures { Self.seen_members result ≡ [] };

    fn push_member(list: &mut Self::Members, member: Self::Member) -> Result<(), AllocError>
        ensures { OnOk result (Self.seen_members list.new ≡ Self.seen_members list.old ++ Self.seen_member member ∷ []) };
}

/// Makes classes, and the expressions and declarations that are classes.
pub trait MakesClasses: MakesMembers + MakesOptionals {
    type Class: Drop;

    ghost seen_class: { Self.Class → Class };

    fn class(
        alloc: Global,
        span: Span,
        name: Option<Identifier>,
        heritage: Self::Optional,
        members: Self::Members,
    ) -> Result<Self::Class, AllocError>
        ensures { IfOk result (λ made. Self.seen_class made ≡ roll-Class (record { span = span; name = name; heritage = Self.seen_optional heritage; members = Self.seen_members members })) };

    /// 14.5
    fn class_expression(alloc: Global, class: Self::Class) -> Result<Self::Reading, AllocError>
        ensures { IfOk result (λ made. Self.seen made ≡ left (expr.Class (Self.seen_class class))) };

    /// 14.5
    fn class_declaration(alloc: Global, class: Self::Class) -> Result<Self::Statement, AllocError>
        ensures { IfOk result (λ made. Self.seen_statement made ≡ stat.ClassDeclaration (Self.seen_class class)) };
}
