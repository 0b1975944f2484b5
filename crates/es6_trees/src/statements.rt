//! The trees of statements that hold no declaration.

use crate::Trees;
use crate::boxes::{both_boxed, boxed_beside, push_one};
use crate::reading::Reading;
use es_text::Span;
use es6_ast::{Block, Case, Condition, Expression, Identifier, Statement};
use es6_makers::{
    MakesBlocks, MakesCases, MakesConditions, MakesExpressionStatements, MakesReturns,
    MakesSimpleStatements, MakesStatementLists,
};
use sqlite_items::{Boxed, Items};
use std::alloc::{AllocError, Global};

impl MakesSimpleStatements for Trees {
    type Statement = Statement;

    ghost seen_statement = { λ x. x };

    fn empty(span: Span) -> Statement {
        Statement::Empty { span }
    }

    fn name_statement(span: Span, name: Identifier) -> Statement {
        let expression = Expression::Name {
            span: name.span,
            name: name.name,
        };
        Statement::Expression { span, expression }
    }

    fn continue_statement(span: Span, label: Option<Identifier>) -> Statement {
        Statement::Continue { span, label }
    }

    fn break_statement(span: Span, label: Option<Identifier>) -> Statement {
        Statement::Break { span, label }
    }

    fn labelled(
        alloc: Global,
        span: Span,
        label: Identifier,
        body: Statement,
    ) -> Result<Statement, AllocError> {
        let body = Boxed::new(alloc, body)?;
        Ok(Statement::Labelled { span, label, body })
    }

    fn debugger(span: Span) -> Statement {
        Statement::Debugger { span }
    }
}

impl MakesStatementLists for Trees {
    type Statements = Items<Statement>;

    ghost seen_statements = { λ x. x };

    fn no_statements(alloc: Global) -> Items<Statement> {
        Items::new(alloc)
    }

    fn push_statement(
        alloc: Global,
        list: &mut Items<Statement>,
        statement: Statement,
    ) -> Result<(), AllocError> {
        push_one(alloc, list, statement)
    }
}

impl MakesBlocks for Trees {
    type Block = Block;

    ghost seen_block = { λ x. x };

    fn block(span: Span, statements: Items<Statement>) -> Block {
        Block { span, statements }
    }

    fn block_statement(block: Block) -> Statement {
        Statement::Block(block)
    }
}

impl MakesExpressionStatements for Trees {
    fn expression_statement(span: Span, value: Reading) -> Statement {
        let expression = value.into_value();
        Statement::Expression { span, expression }
    }

    fn do_while(
        alloc: Global,
        span: Span,
        body: Statement,
        test: Reading,
    ) -> Result<Statement, AllocError> {
        let (body, test) = boxed_beside(alloc, body, test.into_value())?;
        Ok(Statement::DoWhile { span, body, test })
    }

    fn while_statement(
        alloc: Global,
        span: Span,
        test: Reading,
        body: Statement,
    ) -> Result<Statement, AllocError> {
        let (body, test) = boxed_beside(alloc, body, test.into_value())?;
        Ok(Statement::While { span, test, body })
    }

    fn throw(span: Span, value: Reading) -> Statement {
        Statement::Throw {
            span,
            value: value.into_value(),
        }
    }
}

impl MakesReturns for Trees {
    fn return_statement(span: Span, value: Option<Expression>) -> Statement {
        Statement::Return { span, value }
    }
}

impl MakesConditions for Trees {
    type Condition = Condition;

    type Conditions = Items<Condition>;

    ghost seen_condition = { λ x. x };

    ghost seen_conditions = { λ x. x };

    fn condition(
        alloc: Global,
        span: Span,
        test: Reading,
        body: Statement,
    ) -> Result<Condition, AllocError> {
        let (test, body) = both_boxed(alloc, test.into_value(), body)?;
        Ok(Condition { span, test, body })
    }

    fn no_conditions(alloc: Global) -> Items<Condition> {
        Items::new(alloc)
    }

    fn push_condition(list: &mut Items<Condition>, condition: Condition) -> Result<(), AllocError> {
        list.push(condition)
    }

    fn if_statement(span: Span, first: Condition, more: Items<Condition>) -> Statement {
        Statement::If {
            span,
            first,
            more,
            otherwise: None,
        }
    }

    fn if_else(
        alloc: Global,
        span: Span,
        first: Condition,
        more: Items<Condition>,
        otherwise: Statement,
    ) -> Result<Statement, AllocError> {
        let (otherwise, (first, more)) = boxed_beside(alloc, otherwise, (first, more))?;
        Ok(Statement::If {
            span,
            first,
            more,
            otherwise: Some(otherwise),
        })
    }
}

impl MakesCases for Trees {
    type Case = Case;

    type Cases = Items<Case>;

    ghost seen_case = { λ x. x };

    ghost seen_cases = { λ x. x };

    fn case(span: Span, test: Option<Expression>, body: Items<Statement>) -> Case {
        Case { span, test, body }
    }

    fn no_cases(alloc: Global) -> Items<Case> {
        Items::new(alloc)
    }

    fn push_case(list: &mut Items<Case>, case: Case) -> Result<(), AllocError> {
        list.push(case)
    }

    fn switch(span: Span, subject: Reading, cases: Items<Case>) -> Statement {
        Statement::Switch {
            span,
            subject: subject.into_value(),
            cases,
        }
    }
}
