//! The names that statements declare in their block: by `let`, `const`, `function` and `class` (ECMA-262, 6th edition, 13.2.5).

ghost use Rattle.std.specs.Prelude.{◌≡◌, ◌++◌, map, false, OnOk};
ghost use Rattle.es6_static_semantics.specs.Findings.{joined};
ghost use Rattle.es6_static_semantics.specs.Outside.{block_names, class_found, function_found, knows, lexical_names, parts_names, statement_found};
ghost use Rattle.es6_static_semantics.specs.Outside.{case_found, for_first_found, for_target_found, part_found, pattern_found};

use crate::bindings::Bindings;
use es6_ast::{Case, Class, ForFirst, ForTarget, Function, Part, Pattern, Statement, VariableKind};
use std::alloc::AllocError;

impl Bindings {
    /// The names that the statements of a block declare in it.
    pub fn block(&mut self, statements: &[Statement]) -> Result<(), AllocError>
        ensures { OnOk result (self.new ≡ self.old ++ map (knows false) (block_names (map statement_found statements.now))) }
    {
        for statement in statements {
            self.declaration(statement)?;
        }
        Ok(())
    }

    /// The names that the clauses of a switch declare in its block.
    pub fn cases(&mut self, cases: &[Case]) -> Result<(), AllocError>
        ensures { OnOk result (self.new ≡ self.old ++ map (knows false) (block_names (joined (λ c. c.body) (map case_found cases.now)))) }
    {
        for case in cases {
            self.block(case.body.as_slice())?;
        }
        Ok(())
    }

    /// The names that a statement declares in its block.
    pub fn declaration(&mut self, statement: &Statement) -> Result<(), AllocError>
        ensures { OnOk result (self.new ≡ self.old ++ map (knows false) ((statement_found statement.now).lexical ++ (statement_found statement.now).functions)) }
    {
        match statement {
            Statement::Variables { kind, parts, .. } => self.lexical(*kind, parts.as_slice()),
            Statement::FunctionDeclaration(function) => self.function(function.get()),
            Statement::ClassDeclaration(class) => self.class(class.get()),
            _ => Ok(()),
        }
    }

    /// The names that are declared before the first semicolon of a for statement.
    pub fn for_first(&mut self, first: &ForFirst) -> Result<(), AllocError>
        ensures { OnOk result (self.new ≡ self.old ++ map (knows false) (for_first_found first.now).lexical) }
    {
        match first {
            ForFirst::FirstVariables { kind, parts, .. } => self.lexical(*kind, parts.as_slice()),
            ForFirst::NoFirst | ForFirst::FirstExpression(_) => Ok(()),
        }
    }

    /// The names that are declared before the `of` of a for-of statement.
    pub fn for_target(&mut self, target: &ForTarget) -> Result<(), AllocError>
        ensures { OnOk result (self.new ≡ self.old ++ map (knows false) (for_target_found target.now).lexical) }
    {
        match target {
            ForTarget::Declared { kind, pattern, .. } => self.lexical_pattern(*kind, pattern),
            ForTarget::Assigned(_) => Ok(()),
        }
    }

    pub fn function(&mut self, function: &Function) -> Result<(), AllocError>
        ensures { OnOk result (self.new ≡ self.old ++ map (knows false) (function_found function.now).name) }
    {
        self.optional(&function.name)
    }

    pub fn class(&mut self, class: &Class) -> Result<(), AllocError>
        ensures { OnOk result (self.new ≡ self.old ++ map (knows false) (class_found class.now).names) }
    {
        self.optional(&class.name)
    }

    fn lexical(&mut self, kind: VariableKind, parts: &[Part]) -> Result<(), AllocError>
        ensures { OnOk result (self.new ≡ self.old ++ map (knows false) (lexical_names kind (parts_names (map part_found parts.now)))) }
    {
        match kind {
            VariableKind::Var => Ok(()),
            VariableKind::Let | VariableKind::Const => self.parts(parts),
        }
    }

    fn lexical_pattern(&mut self, kind: VariableKind, pattern: &Pattern) -> Result<(), AllocError>
        ensures { OnOk result (self.new ≡ self.old ++ map (knows false) (lexical_names kind (pattern_found pattern.now).names)) }
    {
        match kind {
            VariableKind::Var => Ok(()),
            VariableKind::Let | VariableKind::Const => self.pattern(pattern),
        }
    }
}
