//! Statements.

use crate::nodes::Nodes;
use crate::words::kind_word;
use es6_ast::{Block, Case, Catch, Condition, Expression, ForFirst, ForTarget, Statement};
use sqlite_items::Boxed;

impl<'a> Nodes<'a> {
    /// A statement, whose parts are left.
    pub(crate) fn show_statement(&mut self, statement: &'a Statement) {
        match statement {
            Statement::Block(block) => self.block(block),
            Statement::Variables { span, kind, parts } => {
                self.text.node_with("Variables", *span, kind_word(*kind));
                self.parts(parts.as_slice());
            }
            Statement::Empty { span } => self.text.node("Empty", *span),
            Statement::Debugger { span } => self.text.node("Debugger", *span),
            Statement::Expression { span, expression } => {
                self.text.node("Expression", *span);
                self.expression(expression);
            }
            Statement::Continue { span, label } => {
                self.text.node("Continue", *span);
                self.text.name(label);
            }
            Statement::Break { span, label } => {
                self.text.node("Break", *span);
                self.text.name(label);
            }
            Statement::Return { span, value } => {
                self.text.node("Return", *span);
                self.value(value);
            }
            Statement::Throw { span, value } => {
                self.text.node("Throw", *span);
                self.expression(value);
            }
            Statement::FunctionDeclaration(function) => self.function(function.get()),
            Statement::ClassDeclaration(class) => self.class(class.get()),
            other => self.with_statements(other),
        }
    }

    /// A statement with statements inside.
    fn with_statements(&mut self, statement: &'a Statement) {
        match statement {
            Statement::If {
                span,
                first,
                more,
                otherwise,
            } => {
                self.text.node("If", *span);
                self.condition(first);
                self.conditions(more.as_slice());
                self.otherwise(otherwise);
            }
            Statement::Switch {
                span,
                subject,
                cases,
            } => {
                self.text.node("Switch", *span);
                self.expression(subject);
                self.cases(cases.as_slice());
            }
            Statement::Labelled { span, label, body } => {
                self.text.node("Labelled", *span);
                self.text.identifier(label);
                self.statement(body.get());
            }
            Statement::Try {
                span,
                block,
                catch,
                finally,
            } => {
                self.text.node("Try", *span);
                self.block(block);
                self.catch(catch);
                self.finally(finally);
            }
            other => self.loops(other),
        }
    }

    /// A loop (ECMA-262, 6th edition, 13.7).
    fn loops(&mut self, statement: &'a Statement) {
        match statement {
            Statement::DoWhile { span, body, test } => {
                self.text.node("DoWhile", *span);
                self.statement(body.get());
                self.expression(test);
            }
            Statement::While { span, test, body } => {
                self.text.node("While", *span);
                self.expression(test);
                self.statement(body.get());
            }
            Statement::For {
                span,
                first,
                test,
                update,
                body,
            } => {
                self.text.node("For", *span);
                self.for_first(first.get());
                self.marked_boxed("Test", test);
                self.marked_boxed("Step", update);
                self.statement(body.get());
            }
            Statement::ForOf {
                span,
                target,
                subject,
                body,
            } => {
                self.text.node("ForOf", *span);
                self.for_target(target.get());
                self.expression(subject);
                self.statement(body.get());
            }
            _ => (),
        }
    }

    pub(crate) fn statements(&mut self, statements: &'a [Statement]) {
        for statement in statements {
            self.statement(statement);
        }
    }

    /// A block.
    pub(crate) fn block(&mut self, block: &'a Block) {
        self.text.node("Block", block.span);
        self.statements(block.statements.as_slice());
    }

    /// An expression, if there is one.
    pub(crate) fn value(&mut self, value: &'a Option<Expression>) {
        match value {
            None => (),
            Some(value) => self.expression(value),
        }
    }

    /// An expression, if there is one, behind a word that says what it is.
    fn marked(&mut self, word: &str, value: &'a Option<Expression>) {
        match value {
            None => (),
            Some(value) => {
                self.text.word(word);
                self.expression(value);
            }
        }
    }

    /// As `marked`, of an expression in a box.
    fn marked_boxed(&mut self, word: &str, value: &'a Option<Boxed<Expression>>) {
        match value {
            None => (),
            Some(value) => {
                self.text.word(word);
                self.expression(value.get());
            }
        }
    }

    /// A test with its statement.
    fn condition(&mut self, condition: &'a Condition) {
        self.text.node("Condition", condition.span);
        self.expression(condition.test.get());
        self.statement(condition.body.get());
    }

    fn conditions(&mut self, conditions: &'a [Condition]) {
        for condition in conditions {
            self.condition(condition);
        }
    }

    fn otherwise(&mut self, otherwise: &'a Option<Boxed<Statement>>) {
        match otherwise {
            None => (),
            Some(statement) => {
                self.text.word("Else");
                self.statement(statement.get());
            }
        }
    }

    fn for_first(&mut self, first: &'a ForFirst) {
        match first {
            ForFirst::NoFirst => (),
            ForFirst::FirstVariables { span, kind, parts } => {
                self.text
                    .node_with("FirstVariables", *span, kind_word(*kind));
                self.parts(parts.as_slice());
            }
            ForFirst::FirstExpression(value) => {
                self.text.word("FirstExpression");
                self.expression(value);
            }
        }
    }

    fn for_target(&mut self, target: &'a ForTarget) {
        match target {
            ForTarget::Declared {
                span,
                kind,
                pattern,
            } => {
                self.text.node_with("Declared", *span, kind_word(*kind));
                self.pattern(pattern);
            }
            ForTarget::Assigned(pattern) => self.pattern(pattern),
        }
    }

    fn cases(&mut self, cases: &'a [Case]) {
        for case in cases {
            self.text.node("Case", case.span);
            self.marked("Test", &case.test);
            self.statements(case.body.as_slice());
        }
    }

    fn catch(&mut self, catch: &'a Option<Boxed<Catch>>) {
        match catch {
            None => (),
            Some(catch) => {
                let catch = catch.get();
                self.text.node("Catch", catch.span);
                self.pattern(&catch.parameter);
                self.block(&catch.body);
            }
        }
    }

    fn finally(&mut self, finally: &'a Option<Block>) {
        match finally {
            None => (),
            Some(block) => {
                self.text.word("Finally");
                self.block(block);
            }
        }
    }
}
