//! The scopes that a walk enters (ECMA-262, 6th edition, 13 and 14).

ghost use Rattle.std.specs.Prelude.{◌≡◌, ◌∷◌, ◌++◌, [], length, map, IfOk, OnOk};
ghost use Rattle.es6_static_semantics.specs.Outside.{arguments_name, block_names, body_names, for_first_found, for_target_found, parameter_found, parts_names, pattern_found, some_name, statement_found};
ghost use Rattle.es6_ast.specs.declared.tree.Function.{out-Function};
ghost use Rattle.outside_constructs.specs.Walked.{cases_statements, entered};

use crate::walk::Walk;
use es6_ast::{Case, ForFirst, ForTarget, Function, Identifier, Parameter, Pattern, Statement};
use module_scopes::Bindings;
use std::alloc::AllocError;

impl Walk {
    /// The scope of a block.
    pub(crate) fn enter_statements(&mut self, statements: &[Statement]) -> Result<usize, AllocError>
        ensures scope { OnOk result (self.new ≡ entered (block_names (map statement_found statements.now)) self.old) }
        ensures mark { IfOk result (λ mark. mark ≡ length self.old.environment.known) }
    {
        let mut bindings = Bindings::new(self.alloc());
        bindings.block(statements)?;
        self.enter(bindings)
    }

    /// The scope of a body.
    pub(crate) fn enter_body(&mut self, statements: &[Statement]) -> Result<usize, AllocError>
        ensures scope { OnOk result (self.new ≡ entered (body_names (map statement_found statements.now)) self.old) }
        ensures mark { IfOk result (λ mark. mark ≡ length self.old.environment.known) }
    {
        let mut bindings = Bindings::new(self.alloc());
        bindings.body(statements)?;
        self.enter(bindings)
    }

    /// The scope of the clauses of a switch.
    #[tactic(auto, using(crate::proofs::Walking::walked), unfolding(crate::specs::Walked::cases_statements))]
    pub(crate) fn enter_cases(&mut self, cases: &[Case]) -> Result<usize, AllocError>
        ensures scope { OnOk result (self.new ≡ entered (block_names (cases_statements cases.now)) self.old) }
        ensures mark { IfOk result (λ mark. mark ≡ length self.old.environment.known) }
    {
        let mut bindings = Bindings::new(self.alloc());
        bindings.cases(cases)?;
        self.enter(bindings)
    }

    /// The scope round a for statement.
    pub(crate) fn enter_first(&mut self, first: &ForFirst) -> Result<usize, AllocError>
        ensures scope { OnOk result (self.new ≡ entered ((for_first_found first.now).lexical) self.old) }
        ensures mark { IfOk result (λ mark. mark ≡ length self.old.environment.known) }
    {
        let mut bindings = Bindings::new(self.alloc());
        bindings.for_first(first)?;
        self.enter(bindings)
    }

    /// The scope round a for-of statement.
    pub(crate) fn enter_target(&mut self, target: &ForTarget) -> Result<usize, AllocError>
        ensures scope { OnOk result (self.new ≡ entered ((for_target_found target.now).lexical) self.old) }
        ensures mark { IfOk result (λ mark. mark ≡ length self.old.environment.known) }
    {
        let mut bindings = Bindings::new(self.alloc());
        bindings.for_target(target)?;
        self.enter(bindings)
    }

    /// The scope of a catch's parameter.
    pub(crate) fn enter_pattern(&mut self, pattern: &Pattern) -> Result<usize, AllocError>
        ensures scope { OnOk result (self.new ≡ entered ((pattern_found pattern.now).names) self.old) }
        ensures mark { IfOk result (λ mark. mark ≡ length self.old.environment.known) }
    {
        let mut bindings = Bindings::new(self.alloc());
        bindings.pattern(pattern)?;
        self.enter(bindings)
    }

    /// The scope of a class.
    pub(crate) fn enter_class(&mut self, name: &Option<Identifier>) -> Result<usize, AllocError>
        ensures scope { OnOk result (self.new ≡ entered (some_name name.now) self.old) }
        ensures mark { IfOk result (λ mark. mark ≡ length self.old.environment.known) }
    {
        let mut bindings = Bindings::new(self.alloc());
        bindings.optional(name)?;
        self.enter(bindings)
    }

    /// The scope of an arrow's parameters.
    pub(crate) fn enter_arrow(&mut self, parameters: &[Parameter]) -> Result<usize, AllocError>
        ensures scope { OnOk result (self.new ≡ entered (parts_names (map parameter_found parameters.now)) self.old) }
        ensures mark { IfOk result (λ mark. mark ≡ length self.old.environment.known) }
    {
        let mut bindings = Bindings::new(self.alloc());
        bindings.parameters(parameters)?;
        self.enter(bindings)
    }

    /// The scope of a function's parameters.
    pub(crate) fn enter_function(&mut self, function: &Function) -> Result<usize, AllocError>
        ensures scope { OnOk result (self.new ≡ entered (parts_names (map parameter_found (out-Function function.now).parameters) ++ (arguments_name ∷ some_name (out-Function function.now).name)) self.old) }
        ensures mark { IfOk result (λ mark. mark ≡ length self.old.environment.known) }
    {
        let mut bindings = Bindings::new(self.alloc());
        bindings.parameters(function.parameters.as_slice())?;
        bindings.push(b"arguments".as_slice(), false)?;
        bindings.optional(&function.name)?;
        self.enter(bindings)
    }
}
