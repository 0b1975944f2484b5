//! The names that `var` declares in the statements of a function or a module (ECMA-262, 6th edition, 13.2.11 and 14.1.16).

ghost use Rattle.std.specs.Prelude.{◌≡◌, ◌++◌, map, false, OnOk};
ghost use Rattle.std.specs.Option.{option_map};
ghost use Rattle.es6_static_semantics.specs.Findings.{joined, maybe};
ghost use Rattle.es6_static_semantics.specs.Outside.{block_vars, body_names, knows, parts_names, statement_found, var_names};
ghost use Rattle.es6_static_semantics.specs.Outside.{block_found, case_found, catch_found, condition_found, for_first_found, for_target_found, part_found, pattern_found};

use crate::bindings::Bindings;
use es6_ast::{
    Block, Case, Catch, Condition, ForFirst, ForTarget, Part, Pattern, Statement, VariableKind,
};
use sqlite_items::Boxed;
use std::alloc::AllocError;

impl Bindings {
    /// The names that the statements of a function's body declare in it.
    pub fn body(&mut self, statements: &[Statement]) -> Result<(), AllocError>
        ensures { OnOk result (self.new ≡ self.old ++ map (knows false) (body_names (map statement_found statements.now))) }
    {
        self.block(statements)?;
        self.variables(statements)
    }

    #[cycle(variables)]
    fn variables(&mut self, statements: &[Statement]) -> Result<(), AllocError>
        ensures { OnOk result (self.new ≡ self.old ++ map (knows false) (block_vars (map statement_found statements.now))) }
    {
        for statement in statements {
            self.variables_in(statement)?;
        }
        Ok(())
    }

    /// The names that `var` declares in a statement.
    #[cycle(variables)]
    pub fn variables_in(&mut self, statement: &Statement) -> Result<(), AllocError>
        ensures { OnOk result (self.new ≡ self.old ++ map (knows false) (statement_found statement.now).vars) }
    {
        match statement {
            Statement::Block(block) => self.variables(block.statements.as_slice()),
            Statement::Variables { kind, parts, .. } => self.vars(*kind, parts.as_slice()),
            Statement::If {
                first,
                more,
                otherwise,
                ..
            } => {
                self.variables_in(first.body.get())?;
                self.variables_in_conditions(more.as_slice())?;
                self.variables_in_otherwise(otherwise)
            }
            Statement::For { first, body, .. } => {
                self.vars_in_first(first.get())?;
                self.variables_in(body.get())
            }
            Statement::ForOf { target, body, .. } => {
                self.vars_in_target(target.get())?;
                self.variables_in(body.get())
            }
            Statement::DoWhile { body, .. }
            | Statement::While { body, .. }
            | Statement::Labelled { body, .. } => self.variables_in(body.get()),
            Statement::Switch { cases, .. } => self.variables_in_cases(cases.as_slice()),
            Statement::Try {
                block,
                catch,
                finally,
                ..
            } => {
                self.variables(block.statements.as_slice())?;
                self.variables_in_catch(catch)?;
                self.variables_in_finally(finally)
            }
            _ => Ok(()),
        }
    }

    #[cycle(variables)]
    fn variables_in_conditions(&mut self, conditions: &[Condition]) -> Result<(), AllocError>
        ensures { OnOk result (self.new ≡ self.old ++ map (knows false) (joined (λ c. c.vars) (map condition_found conditions.now))) }
    {
        for condition in conditions {
            self.variables_in(condition.body.get())?;
        }
        Ok(())
    }

    #[cycle(variables)]
    fn variables_in_otherwise(
        &mut self,
        statement: &Option<Boxed<Statement>>,
    ) -> Result<(), AllocError>
        ensures { OnOk result (self.new ≡ self.old ++ map (knows false) (maybe (λ s. s.vars) (option_map statement_found statement.now))) }
    {
        match statement {
            None => Ok(()),
            Some(statement) => self.variables_in(statement.get()),
        }
    }

    #[cycle(variables)]
    fn variables_in_cases(&mut self, cases: &[Case]) -> Result<(), AllocError>
        ensures { OnOk result (self.new ≡ self.old ++ map (knows false) (block_vars (joined (λ c. c.body) (map case_found cases.now)))) }
    {
        for case in cases {
            self.variables(case.body.as_slice())?;
        }
        Ok(())
    }

    #[cycle(variables)]
    fn variables_in_catch(&mut self, catch: &Option<Boxed<Catch>>) -> Result<(), AllocError>
        ensures { OnOk result (self.new ≡ self.old ++ map (knows false) (maybe (λ h. h.vars) (option_map catch_found catch.now))) }
    {
        match catch {
            None => Ok(()),
            Some(catch) => self.variables(catch.get().body.statements.as_slice()),
        }
    }

    #[cycle(variables)]
    fn variables_in_finally(&mut self, block: &Option<Block>) -> Result<(), AllocError>
        ensures { OnOk result (self.new ≡ self.old ++ map (knows false) (maybe block_vars (option_map block_found block.now))) }
    {
        match block {
            None => Ok(()),
            Some(block) => self.variables(block.statements.as_slice()),
        }
    }

    fn vars_in_first(&mut self, first: &ForFirst) -> Result<(), AllocError>
        ensures { OnOk result (self.new ≡ self.old ++ map (knows false) (for_first_found first.now).vars) }
    {
        match first {
            ForFirst::FirstVariables { kind, parts, .. } => self.vars(*kind, parts.as_slice()),
            ForFirst::NoFirst | ForFirst::FirstExpression(_) => Ok(()),
        }
    }

    fn vars_in_target(&mut self, target: &ForTarget) -> Result<(), AllocError>
        ensures { OnOk result (self.new ≡ self.old ++ map (knows false) (for_target_found target.now).vars) }
    {
        match target {
            ForTarget::Declared { kind, pattern, .. } => self.var_pattern(*kind, pattern),
            ForTarget::Assigned(_) => Ok(()),
        }
    }

    fn vars(&mut self, kind: VariableKind, parts: &[Part]) -> Result<(), AllocError>
        ensures { OnOk result (self.new ≡ self.old ++ map (knows false) (var_names kind (parts_names (map part_found parts.now)))) }
    {
        match kind {
            VariableKind::Var => self.parts(parts),
            VariableKind::Let | VariableKind::Const => Ok(()),
        }
    }

    fn var_pattern(&mut self, kind: VariableKind, pattern: &Pattern) -> Result<(), AllocError>
        ensures { OnOk result (self.new ≡ self.old ++ map (knows false) (var_names kind (pattern_found pattern.now).names)) }
    {
        match kind {
            VariableKind::Var => self.pattern(pattern),
            VariableKind::Let | VariableKind::Const => Ok(()),
        }
    }
}
