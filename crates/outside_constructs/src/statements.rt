//! Statements and declarations (ECMA-262, 6th edition, 13).

ghost use Rattle.std.specs.Prelude.{◌≡◌, ◌++◌, map, OnOk};
ghost use Rattle.std.specs.Option.{option_map};
ghost use Rattle.es6_static_semantics.specs.Findings.{joined, maybe};
ghost use Rattle.es6_static_semantics.specs.Outside.{block_found, block_pairs, case_found, catch_found, condition_found, for_first_found, for_target_found, statement_found, statements_pairs};
ghost use Rattle.outside_constructs.specs.Walked.{cases_pairs, cases_statements, meets, statement_parts};

use crate::walk::Walk;
use es6_ast::{Block, Case, Catch, Condition, ForFirst, ForTarget, Statement};
use sqlite_items::Boxed;
use std::alloc::AllocError;

impl Walk {
    #[cycle(outside)]
    #[tactic(auto, using(crate::proofs::Walking::walked), unfolding(crate::specs::Walked::cases_statements))]
    pub(crate) fn statement(&mut self, statement: &Statement) -> Result<(), AllocError>
        ensures { OnOk result (self.new ≡ meets (statement_found statement.now).pairs self.old) }
    {
        match statement {
            Statement::Block(block) => self.block(block),
            Statement::Variables { parts, .. } => self.parts(parts.as_slice()),
            Statement::Empty { .. } | Statement::Debugger { .. } => Ok(()),
            Statement::Expression { expression, .. } => self.expression(expression),
            Statement::If {
                first,
                more,
                otherwise,
                ..
            } => {
                self.condition(first)?;
                self.conditions(more.as_slice())?;
                self.otherwise(otherwise)
            }
            Statement::DoWhile { body, test, .. } => {
                self.statement(body.get())?;
                self.expression(test)
            }
            Statement::While { test, body, .. } => {
                self.expression(test)?;
                self.statement(body.get())
            }
            Statement::For { first, .. } => {
                let mark = self.enter_first(first.get())?;
                self.parts_of(statement)?;
                self.leave(mark);
                Ok(())
            }
            Statement::ForOf { target, .. } => {
                let mark = self.enter_target(target.get())?;
                self.parts_of(statement)?;
                self.leave(mark);
                Ok(())
            }
            Statement::Switch { .. } | Statement::Try { .. } => self.parts_of(statement),
            Statement::Continue { label, .. } | Statement::Break { label, .. } => {
                self.optional_name(label);
                Ok(())
            }
            Statement::Return { value, .. } => self.optional(value),
            Statement::Labelled { label, body, .. } => {
                self.named(label);
                self.statement(body.get())
            }
            Statement::Throw { value, .. } => self.expression(value),
            Statement::FunctionDeclaration(function) => self.function(function.get(), false),
            Statement::ClassDeclaration(class) => self.class(class.get()),
        }
    }

    /// The parts of a statement of many parts: of a loop's, in the scope that its head declares.
    #[cycle(outside)]
    fn parts_of(&mut self, statement: &Statement) -> Result<(), AllocError>
        ensures { OnOk result (self.new ≡ meets (statement_parts statement.now) self.old) }
    {
        match statement {
            Statement::For {
                first,
                test,
                update,
                body,
                ..
            } => {
                self.for_first(first.get())?;
                self.optional_boxed(test)?;
                self.optional_boxed(update)?;
                self.statement(body.get())
            }
            Statement::ForOf {
                target,
                subject,
                body,
                ..
            } => {
                self.for_target(target.get())?;
                self.expression(subject)?;
                self.statement(body.get())
            }
            Statement::Switch { subject, cases, .. } => {
                self.expression(subject)?;
                self.cases(cases.as_slice())
            }
            Statement::Try {
                block,
                catch,
                finally,
                ..
            } => {
                self.block(block)?;
                self.optional_catch(catch)?;
                self.finally(finally)
            }
            _ => Ok(()),
        }
    }

    /// Statements whose names are declared already.
    #[cycle(outside)]
    pub(crate) fn statements(&mut self, statements: &[Statement]) -> Result<(), AllocError>
        ensures { OnOk result (self.new ≡ meets (statements_pairs (map statement_found statements.now)) self.old) }
    {
        for statement in statements {
            self.statement(statement)?;
        }
        Ok(())
    }

    #[cycle(outside)]
    fn otherwise(&mut self, statement: &Option<Boxed<Statement>>) -> Result<(), AllocError>
        ensures { OnOk result (self.new ≡ meets (λ scope. maybe (λ s. s.pairs scope) (option_map statement_found statement.now)) self.old) }
    {
        match statement {
            None => Ok(()),
            Some(statement) => self.statement(statement.get()),
        }
    }

    #[cycle(outside)]
    fn conditions(&mut self, conditions: &[Condition]) -> Result<(), AllocError>
        ensures { OnOk result (self.new ≡ meets (λ scope. joined (λ c. c.pairs scope) (map condition_found conditions.now)) self.old) }
    {
        for condition in conditions {
            self.condition(condition)?;
        }
        Ok(())
    }

    #[cycle(outside)]
    #[tactic(auto, using(crate::proofs::Walking::walked, crate::proofs::Layers::condition_out))]
    fn condition(&mut self, condition: &Condition) -> Result<(), AllocError>
        ensures { OnOk result (self.new ≡ meets (condition_found condition.now).pairs self.old) }
    {
        self.expression(condition.test.get())?;
        self.statement(condition.body.get())
    }

    #[cycle(outside)]
    #[tactic(auto, using(crate::proofs::Walking::walked, crate::proofs::Layers::block_out))]
    fn block(&mut self, block: &Block) -> Result<(), AllocError>
        ensures { OnOk result (self.new ≡ meets (block_pairs (block_found block.now)) self.old) }
    {
        let mark = self.enter_statements(block.statements.as_slice())?;
        self.statements(block.statements.as_slice())?;
        self.leave(mark);
        Ok(())
    }

    #[cycle(outside)]
    fn finally(&mut self, block: &Option<Block>) -> Result<(), AllocError>
        ensures { OnOk result (self.new ≡ meets (λ scope. maybe (λ b. block_pairs b scope) (option_map block_found block.now)) self.old) }
    {
        match block {
            None => Ok(()),
            Some(block) => self.block(block),
        }
    }

    #[cycle(outside)]
    fn optional_catch(&mut self, catch: &Option<Boxed<Catch>>) -> Result<(), AllocError>
        ensures { OnOk result (self.new ≡ meets (λ scope. maybe (λ h. h.pairs scope) (option_map catch_found catch.now)) self.old) }
    {
        match catch {
            None => Ok(()),
            Some(catch) => self.catch(catch.get()),
        }
    }

    #[cycle(outside)]
    #[tactic(auto, using(crate::proofs::Walking::walked, crate::proofs::Layers::catch_out))]
    fn catch(&mut self, catch: &Catch) -> Result<(), AllocError>
        ensures { OnOk result (self.new ≡ meets (catch_found catch.now).pairs self.old) }
    {
        let mark = self.enter_pattern(&catch.parameter)?;
        self.targets(&catch.parameter, true)?;
        self.block(&catch.body)?;
        self.leave(mark);
        Ok(())
    }

    #[cycle(outside)]
    fn for_first(&mut self, first: &ForFirst) -> Result<(), AllocError>
        ensures { OnOk result (self.new ≡ meets (for_first_found first.now).pairs self.old) }
    {
        match first {
            ForFirst::NoFirst => Ok(()),
            ForFirst::FirstVariables { parts, .. } => self.parts(parts.as_slice()),
            ForFirst::FirstExpression(expression) => self.expression(expression),
        }
    }

    #[cycle(outside)]
    fn for_target(&mut self, target: &ForTarget) -> Result<(), AllocError>
        ensures { OnOk result (self.new ≡ meets (for_target_found target.now).pairs self.old) }
    {
        match target {
            ForTarget::Declared { pattern, .. } => self.targets(pattern, true),
            ForTarget::Assigned(pattern) => self.targets(pattern, false),
        }
    }

    /// The clauses of a switch: their names are declared in all of them, in their tests too.
    #[cycle(outside)]
    fn cases(&mut self, cases: &[Case]) -> Result<(), AllocError>
        ensures { OnOk result (self.new ≡ meets (cases_pairs cases.now) self.old) }
    {
        let mark = self.enter_cases(cases)?;
        self.case_tests(cases)?;
        self.case_bodies(cases)?;
        self.leave(mark);
        Ok(())
    }

    #[cycle(outside)]
    #[tactic(auto, using(crate::proofs::Walking::walked, crate::proofs::Layers::case_test_out))]
    fn case_tests(&mut self, cases: &[Case]) -> Result<(), AllocError>
        ensures { OnOk result (self.new ≡ meets (λ scope. joined (λ c. c.test scope) (map case_found cases.now)) self.old) }
    {
        for case in cases {
            self.optional(&case.test)?;
        }
        Ok(())
    }

    #[cycle(outside)]
    #[tactic(auto, using(crate::proofs::Walking::walked, crate::proofs::Layers::case_body_out), unfolding(crate::specs::Walked::cases_statements))]
    fn case_bodies(&mut self, cases: &[Case]) -> Result<(), AllocError>
        ensures { OnOk result (self.new ≡ meets (statements_pairs (cases_statements cases.now)) self.old) }
    {
        for case in cases {
            self.statements(case.body.as_slice())?;
        }
        Ok(())
    }
}
