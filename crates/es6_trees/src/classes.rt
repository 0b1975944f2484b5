//! The trees of classes (ECMA-262, 6th edition, 14.5).

use crate::Trees;
use crate::boxes::boxed_option_beside;
use crate::reading::Reading;
use es_text::Span;
use es6_ast::{Class, ClassMember, Expression, Identifier, Method, Statement};
use es6_makers::{MakesClasses, MakesMembers};
use sqlite_items::{Boxed, Items};
use std::alloc::{AllocError, Global};

impl MakesMembers for Trees {
    type Member = ClassMember;

    type Members = Items<ClassMember>;

    ghost seen_member = { λ x. x };

    ghost seen_members = { λ x. x };

    fn member(span: Span, is_static: bool, method: Method) -> ClassMember {
        ClassMember {
            span,
            is_static,
            method,
        }
    }

    fn no_members(alloc: Global) -> Items<ClassMember> {
        Items::new(alloc)
    }

    fn push_member(list: &mut Items<ClassMember>, member: ClassMember) -> Result<(), AllocError> {
        list.push(member)
    }
}

impl MakesClasses for Trees {
    type Class = Class;

    ghost seen_class = { λ x. x };

    fn class(
        alloc: Global,
        span: Span,
        name: Option<Identifier>,
        heritage: Option<Expression>,
        members: Items<ClassMember>,
    ) -> Result<Class, AllocError> {
        let (heritage, members) = boxed_option_beside(alloc, heritage, members)?;
        Ok(Class {
            span,
            name,
            heritage,
            members,
        })
    }

    fn class_expression(alloc: Global, class: Class) -> Result<Reading, AllocError> {
        let class = Boxed::new(alloc, class)?;
        Ok(Reading::left(Expression::Class(class)))
    }

    fn class_declaration(alloc: Global, class: Class) -> Result<Statement, AllocError> {
        let class = Boxed::new(alloc, class)?;
        Ok(Statement::ClassDeclaration(class))
    }
}
