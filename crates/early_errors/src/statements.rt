//! Statements and declarations (ECMA-262, 6th edition, 13), but for the rules on the names of the scopes in them.

ghost use Rattle.std.specs.Prelude.{◌≡◌, ◌++◌, ◌||◌, map, OnOk};
ghost use Rattle.std.specs.Option.{option_map};
ghost use Rattle.es6_static_semantics.specs.Findings.{joined, maybe, when};
ghost use Rattle.es6_static_semantics.specs.Early.{block_found, case_found, catch_found, condition_found, for_first_found, for_target_found, has_label, has_loop_label, jump_pairs, statement_found, statements_pairs, under_label};
ghost use Rattle.early_errors.specs.Walked.{clause_pairs, clauses_pairs, meets, meets_inside, statement_parts};

use crate::place::Place;
use crate::walk::Walk;
use early_names::{is_function, is_loop};
use es_text::Span;
use es6_ast::{Block, Case, Catch, Condition, ForFirst, ForTarget, Identifier, Statement};
use sqlite_items::Boxed;
use std::alloc::AllocError;

impl Walk {
    #[cycle(early)]
    #[tactic(auto, using(crate::proofs::Walking::walking), unfolding(crate::specs::Walked::clause_pairs))]
    pub(crate) fn statement(
        &mut self,
        statement: &Statement,
        place: Place,
    ) -> Result<(), AllocError>
        ensures { OnOk result (self.new ≡ meets (statement_found statement.now).pairs place self.old) }
    {
        match statement {
            Statement::Block(block) => self.block(block, place),
            Statement::Variables { kind, parts, .. } => {
                self.variables(*kind, parts.as_slice(), place)
            }
            Statement::Empty { .. } | Statement::Debugger { .. } => Ok(()),
            Statement::Expression { expression, .. } => self.expression(expression, place),
            Statement::If {
                first,
                more,
                otherwise,
                ..
            } => {
                self.condition(first, place)?;
                self.conditions(more.as_slice(), place)?;
                self.otherwise(otherwise, place)
            }
            Statement::DoWhile { body, test, .. } => {
                self.statement(body.get(), place.under_loop())?;
                self.expression(test, place)
            }
            Statement::While { test, body, .. } => {
                self.expression(test, place)?;
                self.statement(body.get(), place.under_loop())
            }
            Statement::For { .. }
            | Statement::ForOf { .. }
            | Statement::Switch { .. }
            | Statement::Try { .. } => self.parts_of(statement, place),
            Statement::Continue { span, label } => {
                self.continue_at(*span, label, place);
                Ok(())
            }
            Statement::Break { span, label } => {
                self.break_at(*span, label, place);
                Ok(())
            }
            Statement::Return { value, .. } => self.optional(value, place),
            Statement::Labelled { label, body, .. } => self.labelled(label, body.get(), place),
            Statement::Throw { value, .. } => self.expression(value, place),
            Statement::FunctionDeclaration(function) => {
                self.function(function.get(), Place::of_function(false, false))
            }
            Statement::ClassDeclaration(class) => self.class(class.get(), place),
        }
    }

    /// The parts of a statement of many parts.
    #[cycle(early)]
    fn parts_of(&mut self, statement: &Statement, place: Place) -> Result<(), AllocError>
        ensures { OnOk result (self.new ≡ meets (statement_parts statement.now) place self.old) }
    {
        match statement {
            Statement::For {
                first,
                test,
                update,
                body,
                ..
            } => {
                self.for_first(first.get(), place)?;
                self.optional_boxed(test, place)?;
                self.optional_boxed(update, place)?;
                self.statement(body.get(), place.under_loop())
            }
            Statement::ForOf {
                target,
                subject,
                body,
                ..
            } => {
                self.for_target(target.get(), place)?;
                self.expression(subject, place)?;
                self.statement(body.get(), place.under_loop())
            }
            Statement::Switch { subject, cases, .. } => {
                self.expression(subject, place)?;
                self.clauses(cases.as_slice(), place)
            }
            Statement::Try {
                block,
                catch,
                finally,
                ..
            } => {
                self.block(block, place)?;
                self.optional_catch(catch, place)?;
                self.finally(finally, place)
            }
            _ => Ok(()),
        }
    }

    #[cycle(early)]
    pub(crate) fn statements(
        &mut self,
        statements: &[Statement],
        place: Place,
    ) -> Result<(), AllocError>
        ensures { OnOk result (self.new ≡ meets (statements_pairs (map statement_found statements.now)) place self.old) }
    {
        for statement in statements {
            self.statement(statement, place)?;
        }
        Ok(())
    }

    #[cycle(early)]
    fn otherwise(
        &mut self,
        statement: &Option<Boxed<Statement>>,
        place: Place,
    ) -> Result<(), AllocError>
        ensures { OnOk result (self.new ≡ meets (λ r. maybe (λ s. s.pairs r) (option_map statement_found statement.now)) place self.old) }
    {
        match statement {
            None => Ok(()),
            Some(statement) => self.statement(statement.get(), place),
        }
    }

    #[cycle(early)]
    fn conditions(&mut self, conditions: &[Condition], place: Place) -> Result<(), AllocError>
        ensures { OnOk result (self.new ≡ meets (λ r. joined (λ c. c.pairs r) (map condition_found conditions.now)) place self.old) }
    {
        for condition in conditions {
            self.condition(condition, place)?;
        }
        Ok(())
    }

    #[cycle(early)]
    #[tactic(auto, using(crate::proofs::Walking::walking, crate::proofs::Layers::condition_out))]
    fn condition(&mut self, condition: &Condition, place: Place) -> Result<(), AllocError>
        ensures { OnOk result (self.new ≡ meets (condition_found condition.now).pairs place self.old) }
    {
        self.expression(condition.test.get(), place)?;
        self.statement(condition.body.get(), place)
    }

    #[cycle(early)]
    #[tactic(auto, using(crate::proofs::Walking::walking, crate::proofs::Layers::block_out))]
    fn block(&mut self, block: &Block, place: Place) -> Result<(), AllocError>
        ensures { OnOk result (self.new ≡ meets (statements_pairs (block_found block.now)) place self.old) }
    {
        self.statements(block.statements.as_slice(), place)
    }

    #[cycle(early)]
    fn finally(&mut self, block: &Option<Block>, place: Place) -> Result<(), AllocError>
        ensures { OnOk result (self.new ≡ meets (λ r. maybe (λ b. statements_pairs b r) (option_map block_found block.now)) place self.old) }
    {
        match block {
            None => Ok(()),
            Some(block) => self.block(block, place),
        }
    }

    #[cycle(early)]
    fn optional_catch(
        &mut self,
        catch: &Option<Boxed<Catch>>,
        place: Place,
    ) -> Result<(), AllocError>
        ensures { OnOk result (self.new ≡ meets (λ r. maybe (λ h. h.pairs r) (option_map catch_found catch.now)) place self.old) }
    {
        match catch {
            None => Ok(()),
            Some(catch) => self.catch(catch.get(), place),
        }
    }

    #[cycle(early)]
    #[tactic(auto, using(crate::proofs::Walking::walking, crate::proofs::Layers::catch_out))]
    fn catch(&mut self, catch: &Catch, place: Place) -> Result<(), AllocError>
        ensures { OnOk result (self.new ≡ meets (catch_found catch.now).pairs place self.old) }
    {
        self.targets(&catch.parameter, true, place)?;
        self.block(&catch.body, place)
    }

    #[cycle(early)]
    fn for_first(&mut self, first: &ForFirst, place: Place) -> Result<(), AllocError>
        ensures { OnOk result (self.new ≡ meets_inside (for_first_found first.now).pairs place self.old) }
    {
        match first {
            ForFirst::NoFirst => Ok(()),
            ForFirst::FirstVariables { kind, parts, .. } => {
                self.variables(*kind, parts.as_slice(), place)
            }
            ForFirst::FirstExpression(expression) => self.expression(expression, place),
        }
    }

    #[cycle(early)]
    fn for_target(&mut self, target: &ForTarget, place: Place) -> Result<(), AllocError>
        ensures { OnOk result (self.new ≡ meets_inside (for_target_found target.now).pairs place self.old) }
    {
        match target {
            ForTarget::Declared { pattern, .. } => self.targets(pattern, true, place),
            ForTarget::Assigned(pattern) => self.targets(pattern, false, place),
        }
    }

    /// The clauses of a switch.
    #[cycle(early)]
    fn clauses(&mut self, cases: &[Case], place: Place) -> Result<(), AllocError>
        ensures { OnOk result (self.new ≡ meets (clauses_pairs cases.now) place self.old) }
    {
        for case in cases {
            self.clause(case, place)?;
        }
        Ok(())
    }

    #[cycle(early)]
    #[tactic(auto, using(crate::proofs::Walking::walking, crate::proofs::Layers::case_test_out, crate::proofs::Layers::case_body_out), unfolding(crate::specs::Walked::clause_pairs))]
    fn clause(&mut self, case: &Case, place: Place) -> Result<(), AllocError>
        ensures { OnOk result (self.new ≡ meets (clause_pairs (case_found case.now)) place self.old) }
    {
        self.optional(&case.test, place)?;
        self.statements(case.body.as_slice(), place.under_switch())
    }

    /// A labelled statement, with E13 (13.13.1).
    #[cycle(early)]
    fn labelled(
        &mut self,
        label: &Identifier,
        body: &Statement,
        place: Place,
    ) -> Result<(), AllocError>
        ensures { OnOk result (self.new ≡ meets (λ r. when (has_label label.now.name r.labels || (statement_found body.now).is_function) 13 label.now.span.begin ++ (statement_found body.now).pairs (under_label label.now.name (statement_found body.now).is_loop r)) place self.old) }
    {
        let is_refused = self.labels.has(label.name.bytes()) | is_function(body);
        self.finder.when(is_refused, 13, label.span.begin);
        self.labels.push(label.name.bytes(), is_loop(body))?;
        self.statement(body, place)?;
        self.labels.pop();
        Ok(())
    }

    /// E14 and E15 (13.8.1).
    fn continue_at(&mut self, span: Span, label: &Option<Identifier>, place: Place)
        ensures { self.new ≡ meets (λ r. jump_pairs label.now (λ name. has_loop_label name r.labels) r.in_loop span) place self.old }
    {
        match label {
            None => self.finder.when(!place.in_loop, 15, span.begin),
            Some(label) => {
                let is_label = self.labels.has_loop(label.name.bytes());
                self.finder.when(!is_label, 14, label.span.begin);
            }
        }
    }

    /// E14 and E15 (13.9.1).
    fn break_at(&mut self, span: Span, label: &Option<Identifier>, place: Place)
        ensures { self.new ≡ meets (λ r. jump_pairs label.now (λ name. has_label name r.labels) (r.in_loop || r.in_switch) span) place self.old }
    {
        match label {
            None => self
                .finder
                .when(!(place.in_loop | place.in_switch), 15, span.begin),
            Some(label) => {
                let is_label = self.labels.has(label.name.bytes());
                self.finder.when(!is_label, 14, label.span.begin);
            }
        }
    }
}
