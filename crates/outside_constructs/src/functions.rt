//! Functions, arrows and classes (ECMA-262, 6th edition, 14).

ghost use Rattle.std.specs.Prelude.{◌≡◌, ◌∷◌, ◌++◌, [], map, true, OnOk};
ghost use Rattle.std.specs.Option.{option_map};
ghost use Rattle.es6_ast.specs.declared.tree.Function.{out-Function};
ghost use Rattle.es6_static_semantics.specs.Findings.{joined, maybe};
ghost use Rattle.es6_static_semantics.specs.Outside.{arguments_name, arrow_found, class_found, class_member_found, expression_found, function_found, function_pairs, heritage_pairs, parameter_found, parts_pairs, some_name, statement_found};
ghost use Rattle.outside_constructs.specs.Walked.{arrow_body_parts, arrow_parts, inside_body, meets, statements_body};

use crate::walk::Walk;
use es6_ast::{Arrow, ArrowBody, Class, ClassMember, Expression, Function, Parameter, Statement};
use sqlite_items::Boxed;
use std::alloc::AllocError;

impl Walk {
    /// A function, or the one of a method, of an object literal or not.
    #[cycle(outside)]
    #[tactic(auto, using(crate::proofs::Walking::walked, crate::proofs::Layers::function_out))]
    pub(crate) fn function(
        &mut self,
        function: &Function,
        in_object: bool,
    ) -> Result<(), AllocError>
        ensures { OnOk result (self.new ≡ meets ((function_found function.now).pairs in_object) self.old) }
    {
        self.optional_name(&function.name);
        let outer = self.environment.replace_in_object(in_object);
        self.inside_function(function)?;
        let _ = self.environment.replace_in_object(outer);
        Ok(())
    }

    /// The parameters and the body of a function.
    #[cycle(outside)]
    fn inside_function(&mut self, function: &Function) -> Result<(), AllocError>
        ensures { OnOk result (self.new ≡ meets (function_pairs (arguments_name ∷ some_name (out-Function function.now).name) (map parameter_found (out-Function function.now).parameters) (statements_body (map statement_found (out-Function function.now).body))) self.old) }
    {
        let mark = self.enter_function(function)?;
        self.parameters(function.parameters.as_slice())?;
        self.body(function.body.as_slice())?;
        self.leave(mark);
        Ok(())
    }

    /// The statements of a function, in a scope that declares their names.
    #[cycle(outside)]
    fn body(&mut self, statements: &[Statement]) -> Result<(), AllocError>
        ensures { OnOk result (self.new ≡ meets (inside_body (statements_body (map statement_found statements.now))) self.old) }
    {
        let mark = self.enter_body(statements)?;
        self.statements(statements)?;
        self.leave(mark);
        Ok(())
    }

    /// An arrow.
    #[cycle(outside)]
    pub(crate) fn arrow(&mut self, arrow: &Arrow) -> Result<(), AllocError>
        ensures { OnOk result (self.new ≡ meets (arrow_found arrow.now) self.old) }
    {
        self.inside_arrow(arrow)
    }

    /// The parameters and the body of an arrow.
    #[cycle(outside)]
    fn inside_arrow(&mut self, arrow: &Arrow) -> Result<(), AllocError>
        ensures { OnOk result (self.new ≡ meets (arrow_parts arrow.now) self.old) }
    {
        let mark = self.enter_arrow(arrow.parameters.as_slice())?;
        self.parameters(arrow.parameters.as_slice())?;
        self.arrow_body(&arrow.body)?;
        self.leave(mark);
        Ok(())
    }

    #[cycle(outside)]
    fn arrow_body(&mut self, body: &ArrowBody) -> Result<(), AllocError>
        ensures { OnOk result (self.new ≡ meets (arrow_body_parts body.now) self.old) }
    {
        match body {
            ArrowBody::ValueBody(value) => self.expression(value.get()),
            ArrowBody::BlockBody(block) => self.body(block.statements.as_slice()),
        }
    }

    #[cycle(outside)]
    fn parameters(&mut self, parameters: &[Parameter]) -> Result<(), AllocError>
        ensures { OnOk result (self.new ≡ meets (parts_pairs true (map parameter_found parameters.now)) self.old) }
    {
        for parameter in parameters {
            self.parameter(parameter)?;
        }
        Ok(())
    }

    #[cycle(outside)]
    fn parameter(&mut self, parameter: &Parameter) -> Result<(), AllocError>
        ensures { OnOk result (self.new ≡ meets ((parameter_found parameter.now).pairs true) self.old) }
    {
        match parameter {
            Parameter::SingleParameter(part) => self.part(part, true),
            Parameter::RestParameter { pattern, .. } => self.targets(pattern, true),
        }
    }

    /// A class: its name is declared in its heritage and its members (14.5.14).
    #[cycle(outside)]
    #[tactic(auto, using(crate::proofs::Walking::walked, crate::proofs::Layers::class_out))]
    pub(crate) fn class(&mut self, class: &Class) -> Result<(), AllocError>
        ensures { OnOk result (self.new ≡ meets (class_found class.now).pairs self.old) }
    {
        self.optional_name(&class.name);
        let mark = self.enter_class(&class.name)?;
        self.heritage(&class.heritage)?;
        self.members(class.members.as_slice())?;
        self.leave(mark);
        Ok(())
    }

    #[cycle(outside)]
    fn heritage(&mut self, heritage: &Option<Boxed<Expression>>) -> Result<(), AllocError>
        ensures { OnOk result (self.new ≡ meets (λ scope. maybe (λ h. heritage_pairs h scope ++ h.pairs scope) (option_map expression_found heritage.now)) self.old) }
    {
        match heritage {
            None => Ok(()),
            Some(heritage) => {
                self.extended(heritage.get());
                self.expression(heritage.get())
            }
        }
    }

    #[cycle(outside)]
    #[tactic(auto, using(crate::proofs::Walking::walked, crate::proofs::Layers::class_member_out))]
    fn members(&mut self, members: &[ClassMember]) -> Result<(), AllocError>
        ensures { OnOk result (self.new ≡ meets (λ scope. joined (λ x. x scope) (map class_member_found members.now)) self.old) }
    {
        for member in members {
            self.method(&member.method, false)?;
        }
        Ok(())
    }
}
