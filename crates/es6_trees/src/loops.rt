//! The trees of variables and of for statements.

use crate::Trees;
use crate::boxes::{both_boxed_beside, boxed_option_beside};
use crate::reading::Reading;
use es_text::Span;
use es6_ast::{Expression, ForFirst, ForTarget, Part, Pattern, Statement, VariableKind};
use es6_makers::{
    MakesForAssignments, MakesForHeaders, MakesForStatements, MakesForVariables, MakesLoops,
    MakesVariables,
};
use sqlite_items::Items;
use std::alloc::{AllocError, Global};

impl MakesVariables for Trees {
    type Parts = Items<Part>;

    ghost seen_parts = { λ x. x };

    fn no_parts(alloc: Global) -> Items<Part> {
        Items::new(alloc)
    }

    fn push_part(list: &mut Items<Part>, part: Part) -> Result<(), AllocError> {
        list.push(part)
    }

    fn append_parts(list: &mut Items<Part>, more: Items<Part>) -> Result<(), AllocError> {
        list.append(more)
    }

    fn variables(span: Span, kind: VariableKind, parts: Items<Part>) -> Statement {
        Statement::Variables { span, kind, parts }
    }
}

impl MakesForHeaders for Trees {
    type ForFirst = ForFirst;

    type ForTarget = ForTarget;

    ghost seen_first = { λ x. x };

    ghost seen_target = { λ x. x };

    fn no_first() -> ForFirst {
        ForFirst::NoFirst
    }

    fn first_expression(value: Reading) -> ForFirst {
        ForFirst::FirstExpression(value.into_value())
    }
}

impl MakesForAssignments for Trees {
    fn assigned(pattern: Pattern) -> ForTarget {
        ForTarget::Assigned(pattern)
    }
}

impl MakesForVariables for Trees {
    fn first_variables(span: Span, kind: VariableKind, parts: Items<Part>) -> ForFirst {
        ForFirst::FirstVariables { span, kind, parts }
    }

    fn declared(span: Span, kind: VariableKind, pattern: Pattern) -> ForTarget {
        ForTarget::Declared {
            span,
            kind,
            pattern,
        }
    }
}

impl MakesLoops for Trees {
    fn for_statement(
        alloc: Global,
        span: Span,
        first: ForFirst,
        test: Option<Expression>,
        update: Option<Expression>,
        body: Statement,
    ) -> Result<Statement, AllocError> {
        let (test, (update, (first, body))) = boxed_option_beside(
            alloc,
            test,
            (update, (first, body)),
        )?;
        let (update, (test, (first, body))) = boxed_option_beside(
            alloc,
            update,
            (test, (first, body)),
        )?;
        let ((first, body), (test, update)) = both_boxed_beside(
            alloc,
            first,
            body,
            (test, update),
        )?;
        Ok(Statement::For {
            span,
            first,
            test,
            update,
            body,
        })
    }

    fn for_of(
        alloc: Global,
        span: Span,
        target: ForTarget,
        subject: Reading,
        body: Statement,
    ) -> Result<Statement, AllocError> {
        let ((target, body), subject) = both_boxed_beside(
            alloc,
            target,
            body,
            subject.into_value(),
        )?;
        Ok(Statement::ForOf {
            span,
            target,
            subject,
            body,
        })
    }
}

impl MakesForStatements for Trees {}
